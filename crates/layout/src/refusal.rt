// The number of each refusal and the two places that it tells.
ghost use Rattle.std.specs.Prelude.{◌≡◌};
ghost use Rattle.layout.specs.Refusals.{refused_at, field_refusal, line_refusal, read_refusal, open_refusal};

use crate::fault::{FieldFault, LineFault, OpenFault, Place, ReadFault, Refusal};

fn at(number: u8, place: Place) -> Refusal
    ensures { result ≡ refused_at number place }
{
    Refusal {
        number,
        first: place.line,
        second: place.byte,
    }
}

impl From<FieldFault> for Refusal {
    ghost from_gives = { λ fault refusal. refusal ≡ field_refusal fault };

    fn from(fault: FieldFault) -> Refusal {
        match fault {
            FieldFault::NoDigit(place) => at(0x11, place),
            FieldFault::LineFeed(place) => at(0x12, place),
            FieldFault::Over(place) => at(0x14, place),
            FieldFault::OutOfRange(place) => at(0x16, place),
        }
    }
}

impl From<LineFault> for Refusal {
    ghost from_gives = { λ fault refusal. refusal ≡ line_refusal fault };

    fn from(fault: LineFault) -> Refusal {
        match fault {
            LineFault::Field(fault) => Refusal::from(fault),
            LineFault::WrongKind(place) => at(0x15, place),
            LineFault::NoLineFeed(place) => at(0x13, place),
            LineFault::Unended(place) => at(0x14, place),
        }
    }
}

impl From<ReadFault> for Refusal {
    ghost from_gives = { λ fault refusal. refusal ≡ read_refusal fault };

    fn from(fault: ReadFault) -> Refusal {
        match fault {
            ReadFault::TooFewCells { needed, given } => Refusal {
                number: 0x10,
                first: needed,
                second: given,
            },
            ReadFault::Line(fault) => Refusal::from(fault),
            ReadFault::Extra(place) => at(0x17, place),
        }
    }
}

impl From<OpenFault> for Refusal {
    ghost from_gives = { λ fault refusal. refusal ≡ open_refusal fault };

    fn from(_fault: OpenFault) -> Refusal {
        Refusal {
            number: 0x39,
            first: 0,
            second: 0,
        }
    }
}
