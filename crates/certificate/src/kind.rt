// Rank kinds: how many numbers a rank has, and which fall rows each mode calls for.
ghost use Rattle.std.specs.Prelude.{◌≡◌};
ghost use Rattle.dossier.specs.Kinds.{Kind, Lawful, by_first_difference, fall_of};
ghost use Rattle.dossier.proofs.KindsLaw.{kinds_law};

use dossier::fall::Fall;

// A kind means when one rank falls below another; its laws say that the fall rows of a mode give a fall, and that no chain
// of falls is endless. A question changes nothing.
pub trait RankKind {
    ghost kind: { Kind };

    fn numbers(&self) -> usize
        ensures { result ≡ kind.numbers };

    // The fall row of a mode and an index. A mode is the number that the sheet has: 0, or which
    // number of a rank falls, from 1. The definitions of rank kinds take this number, so an enum would be turned back into it.
    fn fall(&self, mode: usize, index: usize) -> Fall
        ensures { result ≡ kind.fall mode index };

    ghost lawful: { Lawful kind };
}

// The numbers before the one of the mode do not rise, and that one falls.
fn fall_of(numbers: usize, mode: usize, index: usize) -> Fall
    ensures { result ≡ fall_of numbers mode index }
{
    if mode > numbers {
        return Fall::None;
    }
    if index >= numbers {
        return Fall::None;
    }
    if index + 1 < mode {
        Fall::Keeps { number: index }
    } else if index + 1 == mode {
        Fall::Drops { number: index }
    } else {
        Fall::None
    }
}

// Ranks of so many numbers, the outer before the inner: lower at the first number that differs.
#[derive(Clone, Copy)]
pub struct ByFirstDifference<const NUMBERS: usize>;

pub type OneNumber = ByFirstDifference<1>;

pub type TwoNumbers = ByFirstDifference<2>;

impl<const NUMBERS: usize> RankKind for ByFirstDifference<NUMBERS> {
    ghost kind = { by_first_difference NUMBERS };

    ghost lawful = { kinds_law NUMBERS };

    fn numbers(&self) -> usize {
        NUMBERS
    }

    fn fall(&self, mode: usize, index: usize) -> Fall {
        fall_of(NUMBERS, mode, index)
    }
}
