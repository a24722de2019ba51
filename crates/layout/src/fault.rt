// Why a text is not read. A field's fault enters a line's fault, and that a sheet's; each keeps its place.
ghost use Rattle.std.specs.Prelude.{◌≡◌};
ghost use Rattle.layout.specs.declared.fault.LineFault.TheVariants.{Field as InField};
ghost use Rattle.layout.specs.declared.fault.ReadFault.TheVariants.{Line as InLine};

// A place in a text: the line, from 1, and the byte, from 0, counted through the whole text.
#[derive(Clone, Copy, Debug, PartialEq, Eq)]
pub struct Place {
    pub line: usize,
    pub byte: usize,
}

#[derive(Clone, Copy, Debug, PartialEq, Eq)]
pub enum FieldFault {
    // a byte that is no digit, where a digit is due
    NoDigit(Place),
    // a line feed where a digit is due
    LineFeed(Place),
    // the text ends where a digit is due
    Over(Place),
    // a value outside its range, at its first digit
    OutOfRange(Place),
}

#[derive(Clone, Copy, Debug, PartialEq, Eq)]
pub enum LineFault {
    Field(FieldFault),
    // another kind than the one due, at its first digit
    WrongKind(Place),
    // a byte where the line feed is due
    NoLineFeed(Place),
    // the text ends where the line feed is due
    Unended(Place),
}

#[derive(Clone, Copy, Debug, PartialEq, Eq)]
pub enum ReadFault {
    TooFewCells { needed: usize, given: usize },
    Line(LineFault),
    // a byte after the last line
    Extra(Place),
}

#[derive(Clone, Copy, Debug, PartialEq, Eq)]
pub enum OpenFault {
    NotWellFormed,
}

// What every refusal tells: its number and two places. The number is what it is known by outside; inside, faults are enums.
#[derive(Clone, Copy, Debug, PartialEq, Eq)]
pub struct Refusal {
    pub number: u8,
    pub first: usize,
    pub second: usize,
}

impl From<FieldFault> for LineFault {
    ghost from_gives = { λ x y. y ≡ InField x };

    fn from(fault: FieldFault) -> LineFault {
        LineFault::Field(fault)
    }
}

impl From<LineFault> for ReadFault {
    ghost from_gives = { λ x y. y ≡ InLine x };

    fn from(fault: LineFault) -> ReadFault {
        ReadFault::Line(fault)
    }
}
