// A sheet: a well-formed list of cells, held for reading.
ghost use Rattle.std.specs.Prelude.{◌≡◌, true};
ghost use Rattle.layout.specs.Cases.{run_down_cells};
ghost use Rattle.layout.specs.Cells.{well_formed};

use crate::built_in::RUN_DOWN;
use crate::cells::value_at;
use crate::source::Source;

#[derive(Clone, Copy)]
pub struct Sheet<'a> {
    pub list: &'a [i32],
    ghost formed: { well_formed list.now ≡ true },
}

// The sheet that stands before any is opened: one over the run-down cells.
pub fn run_down<'a>() -> Sheet<'a>
    ensures { result.list.now ≡ run_down_cells }
{
    Sheet { list: &RUN_DOWN }
}

impl<'a> Source for Sheet<'a> {
    ghost cells = { λ s. s.list.now };

    ghost formed = { λ s. s.formed };

    fn count(&self) -> usize {
        self.list.len()
    }

    fn cell(&self, index: usize) -> i32 {
        value_at(self.list, index)
    }
}
