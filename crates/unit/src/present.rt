// The dossier that the console works on: one source, so that later stages hold one type.
ghost use Rattle.unit.specs.Dossiers.{dossier_cells, dossier_formed};

use crate::held::Held;
use sources::built_in::BuiltIn;
use sources::source::Source;

#[derive(Drop)]
pub enum Dossier {
    BuiltIn,
    Held(Held),
}

impl Source for Dossier {
    ghost cells = { dossier_cells };

    ghost formed = { dossier_formed };

    // Each arm is another type of source, here and below, so that no pattern takes both.
    fn count(&self) -> usize {
        match self {
            Dossier::BuiltIn => BuiltIn.count(),
            Dossier::Held(held) => held.count(),
        }
    }

    fn cell(&self, index: usize) -> i32 {
        match self {
            Dossier::BuiltIn => BuiltIn.cell(index),
            Dossier::Held(held) => held.cell(index),
        }
    }
}
