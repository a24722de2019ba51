// The number of each refusal of admission and the two places that it tells.
ghost use Rattle.std.specs.Prelude.{◌≡◌};
ghost use Rattle.dossier.specs.Refusals.{admit_refusal};

use crate::fault::AdmitFault;
use layout::fault::Refusal;

impl From<AdmitFault> for Refusal {
    ghost from_gives = { λ fault refusal. refusal ≡ admit_refusal fault };

    fn from(fault: AdmitFault) -> Refusal {
        let (number, first, second) = match fault {
            AdmitFault::Other { form, numbers } => (0x20, form, numbers),
            AdmitFault::NoEdge { state, letter } => (0x21, state, letter),
            AdmitFault::StartLine { line } => (0x22, 0, line),
            AdmitFault::MoveLine { number, line } => (0x23, number, line),
            AdmitFault::Shown { row } => (0x24, 0, row),
            AdmitFault::StepElsewhere { point } => (0x25, point, 0),
            AdmitFault::EdgeElsewhere { point } => (0x25, point, 1),
            AdmitFault::PointLine { point, line } => (0x26, point, line),
        };
        Refusal {
            number,
            first,
            second,
        }
    }
}
