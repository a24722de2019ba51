// The built-in dossier.
ghost use Rattle.layout.specs.Cases.{run_down_cells};
ghost use Rattle.layout.proofs.Worked.{run_down_formed};

use crate::cells::value_at;
use crate::source::Source;

// The cells of the run-down dossier: x counts down to 0.
pub(crate) const RUN_DOWN: [i32; 37] = [
    1, 1, 1, 0, 1, 1, 1, 1, 0, 0, 0, 1, 1, 0, 1, 0, 0, -1, 1, -1, 1, 0, 0, 0, 0, 0, 0, 1, 1, 1, 1,
    1, 0, 1, 1, 0, 0,
];

// The built-in dossier, from a constant table.
#[derive(Clone, Copy)]
pub struct BuiltIn;

impl Source for BuiltIn {
    ghost cells = { λ _. run_down_cells };

    ghost formed = { λ _. run_down_formed };

    fn count(&self) -> usize {
        RUN_DOWN.len()
    }

    fn cell(&self, index: usize) -> i32 {
        value_at(&RUN_DOWN, index)
    }
}
