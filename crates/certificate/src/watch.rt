// The watch: which edge goes on from a state with a letter.
ghost use Rattle.std.specs.Prelude.{◌≡◌, ◌^◌, ◌<◌, ◌≤◌};
ghost use Rattle.dossier.specs.Admission as admission;
ghost use Rattle.dossier.specs.Runs as runs;
ghost use Rattle.certificate.specs.Outcomes.{passed};

use crate::view::View;
use dossier::fault::AdmitFault;
use sources::source::Source;

impl<'a, S: Source> View<'a, S> {
    // Whether a letter has every bit of an edge's must mask and none of its must-not mask.
    fn edge_matches(&self, edge: usize, letter: usize) -> bool
        requires { edge ≤ 12 }
        ensures { result ≡ runs.matches (S.cells self.now.source.now) edge letter }
    {
        // both are read before either is compared, which lets the search be compiled for each sort of source by itself
        let must = self.must(edge);
        let must_not = self.must_not(edge);
        letter & must == must && letter & must_not == 0
    }

    // The lowest-numbered edge from a state that matches a letter.
    fn matching_edge(&self, state: usize, letter: usize) -> Option<usize>
        ensures { result ≡ admission.edge_for (S.cells self.now.source.now) state letter }
    {
        (0..self.head.edges as usize).find(
            |edge|
                requires { edge.now ≤ 12 }
            { self.edge_from(*edge) == state && self.edge_matches(*edge, letter) },
        )
    }

    // Every letter has an edge from a state.
    fn state_complete(&self, state: usize) -> Result<(), AdmitFault>
        ensures { result ≡ passed (admission.state_trials (S.cells self.now.source.now) state) }
    {
        for letter in 0..1usize << self.head.propositions {
            let Some(_) = self.matching_edge(state, letter) else {
                return Err(AdmitFault::NoEdge { state, letter });
            };
        }
        Ok(())
    }

    // Every letter has an edge from every state.
    pub(crate) fn watch_complete(&self) -> Result<(), AdmitFault>
        ensures { result ≡ passed (admission.watch_trials (S.cells self.now.source.now)) }
    {
        for state in 0..self.head.states as usize {
            self.state_complete(state)?;
        }
        Ok(())
    }
}
