// The tests of the every-run form. The form is asked for by a clause: as a type of its own it would be taken apart again by
// what both forms call.
//
// Here and in the other form the loop over lines stands in each search, and is not one function: the project asks for nested
// loops that are left by a label.
ghost use Rattle.std.specs.Prelude.{◌≡◌};
ghost use Rattle.std.specs.List.{flat_map};
ghost use Rattle.layout.specs.declared.form.Form.TheVariants.{EveryRun};
ghost use Rattle.dossier.specs.Admission as admission;
ghost use Rattle.dossier.specs.Rows.{each};
ghost use Rattle.certificate.specs.Outcomes.{passed, move_fault};

use crate::kind::RankKind;
use crate::ranked::Ranked;
use crate::table::Table;
use crate::view::View;
use dossier::fault::AdmitFault;
use sources::source::Source;

impl<'a, S: Source> View<'a, S> {
    // Whether every start line holds.
    pub(crate) fn start_lines(
        &self,
        assumed: &mut Table,
        conclusions: &mut Table,
    ) -> Result<(), AdmitFault>
        requires { self.now.head.form ≡ EveryRun }
        ensures { result ≡ passed (admission.start_trials (S.cells self.now.source.now)) }
    {
        self.start_hypotheses(assumed);
        let hypotheses = assumed.as_slice();
        conclusions.clear();
        self.push_start_point(conclusions);
        for (line, conclusion) in conclusions.as_slice().iter().enumerate() {
            let at = self.start_line_at(line);
            if !self.judge(at, hypotheses, conclusion) {
                return Err(AdmitFault::StartLine { line });
            }
        }
        Ok(())
    }
}

impl<'a, S: Source, K: RankKind> Ranked<'a, S, K> {
    // The first line of a move that does not hold: the numbers of the move and of the line.
    pub(crate) fn failing_line(
        &self,
        assumed: &mut Table,
        conclusions: &mut Table,
    ) -> Option<(usize, usize)>
        requires { self.now.view.head.form ≡ EveryRun }
        ensures { move_fault result ≡ admission.first_failure (flat_map (admission.trials_of_move (S.cells self.now.view.source.now) K.kind) (each (admission.moves (S.cells self.now.view.source.now)) (λ m. m))) }
    {
        let edges = self.view.head.edges as usize;
        let mut failing = None;
        'search: for index in 0..self.view.moves() {
            self.view
                .move_hypotheses_of(index / edges, index % edges, assumed);
            let hypotheses = assumed.as_slice();
            self.move_claims(index, hypotheses, conclusions);
            for (line, conclusion) in conclusions.as_slice().iter().enumerate() {
                let at = self.view.move_line_at(index, line);
                if !self.view.judge(at, hypotheses, conclusion) {
                    failing = Some((index, line));
                    break 'search;
                }
            }
        }
        failing
    }
}
