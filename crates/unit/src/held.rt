// A source that owns its cells. A sheet only borrows them, so that a console could not keep both from one command to the next.
ghost use Rattle.std.specs.Prelude.{◌≡◌, true, false, MatchResult};
ghost use Rattle.layout.specs.Cells.{well_formed};
ghost use Rattle.sheet.specs.Outcomes.{verdict};

use layout::fault::OpenFault;
use sheet::opening::open;
use sources::cells::value_at;
use sources::sheet::run_down;
use sources::source::Source;

#[derive(Drop)]
pub struct Held {
    cells: Vec<i32>,
    ghost formed: { well_formed cells.items ≡ true },
}

impl Held {
    // Holds just these cells, if they are a full sheet's.
    pub(crate) fn open(cells: Vec<i32>) -> Result<Held, OpenFault>
        ensures { MatchResult result (λ h. h.cells.items ≡ cells.items) (λ e. well_formed cells.items ≡ false) }
    {
        judge(cells.as_slice())?;
        Ok(Held { cells })
    }
}

// Whether the cells are a full sheet's.
fn judge(list: &[i32]) -> Result<(), OpenFault>
    ensures { result ≡ verdict (well_formed list.now) }
{
    open(list, &mut run_down())
}

impl Source for Held {
    ghost cells = { λ s. s.cells.items };

    ghost formed = { λ s. s.formed };

    fn count(&self) -> usize {
        self.cells.len()
    }

    fn cell(&self, index: usize) -> i32 {
        value_at(&self.cells, index)
    }
}
