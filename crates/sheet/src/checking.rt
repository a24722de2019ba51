// The fields of a list of cells. Kinds and line ends are not written there.
ghost use Rattle.std.specs.Prelude.{◌≡◌, ◌&&◌, true, ℤ, FitsSigned, int_le};
ghost use Rattle.std.specs.Int.{w32};
ghost use Rattle.std.specs.List.{fold, list_all};
ghost use Rattle.layout.proofs.CheckLaw.{cells_lawful};
ghost use Rattle.layout.specs.Cells.{between, passes, writable};
ghost use Rattle.layout.specs.Checking.{cell_supply};

use crate::checker::Checker;
use crate::store::Store;
use crate::tests_of::passes_in;
use crate::walk::Fields;
use layout::fault::OpenFault;
use layout::field::{Digits, Range};

// Whether every value lies between two bounds. No value is judged by itself, which is what makes it fast.
fn all_between(part: &[i32], low: i32, high: i32) -> bool
    ensures { result ≡ fold (λ all v. (all && int_le low v) && int_le v high) true part.now }
{
    part.iter().fold(true, |all, value| all & (low <= *value) & (*value <= high))
}

// The lowest and the highest cell that the digits can write. One table for this and `is_writable` would be of 64 bits, since
// eight digits write more than a cell holds, and its bounds would have to be cast back here.
fn span(digits: Digits) -> (i32, i32)
    ensures { (v : ℤ) → FitsSigned w32 v → between result.0 result.1 v ≡ writable digits v }
{
    match digits {
        Digits::Two => (0, 0xff),
        Digits::Four => (-0x8000, 0x7fff),
        Digits::Eight => (0, i32::MAX),
        Digits::Value => (i32::MIN, i32::MAX),
    }
}

// Whether every value may stand in a field of these digits and this range.
fn all_pass(part: &[i32], digits: Digits, range: Range) -> bool
    ensures { result ≡ list_all (passes digits range) part.now }
{
    match range {
        Range::Between { low, high } => {
            let (least, most) = span(digits);
            all_between(part, low.max(least), high.min(most))
        }
        Range::Apart { .. } => part
            .iter()
            .all(|value| passes_in(digits, range, *value as i64)),
    }
}

impl<'a> Fields for Checker<'a> {
    type Fault = OpenFault;

    ghost supply = { λ s. cell_supply s.list.now };

    ghost lawful = { λ s. cells_lawful s.list.now };

    ghost place = { λ s. s.place };

    fn kind(&mut self, _due: u8) -> Result<(), OpenFault> {
        Ok(())
    }

    fn field(&mut self, digits: Digits, range: Range) -> Result<i32, OpenFault> {
        let at = self.place.byte;
        let Some(&value) = self.list.get(at) else {
            return Err(OpenFault::NotWellFormed);
        };
        if !passes_in(digits, range, value as i64) {
            return Err(OpenFault::NotWellFormed);
        }
        self.place.byte = at + 1;
        Ok(value)
    }

    fn end(&mut self) -> Result<(), OpenFault> {
        Ok(())
    }

    fn run(
        &mut self,
        digits: Digits,
        range: Range,
        count: u16,
        store: &mut Store,
    ) -> Result<(), OpenFault> {
        let from = self.place.byte;
        let size = count as usize;
        if size > self.list.len() - from {
            return Err(OpenFault::NotWellFormed);
        }
        let part = &self.list[from..from + size];
        if !all_pass(part, digits, range) {
            return Err(OpenFault::NotWellFormed);
        }
        self.place.byte = from + size;
        store.put_all(part);
        Ok(())
    }
}
