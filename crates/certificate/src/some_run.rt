// The tests of the some-run form.
ghost use Rattle.std.specs.Prelude.{◌≡◌, ◌<◌};
ghost use Rattle.std.specs.List.{flat_map};
ghost use Rattle.layout.specs.declared.form.Form.TheVariants.{SomeRun};
ghost use Rattle.dossier.specs.Admission as admission;
ghost use Rattle.dossier.specs.Dossier as parts;
ghost use Rattle.dossier.specs.Rows.{each};
ghost use Rattle.certificate.specs.Outcomes.{passed};

use crate::kind::RankKind;
use crate::ranked::Ranked;
use crate::table::Table;
use crate::view::View;
use dossier::fault::AdmitFault;
use sources::source::Source;

impl<'a, S: Source> View<'a, S> {
    // Whether the choice of a point begins there. In mode 0 it need not.
    pub(crate) fn choice_begins(&self, point: usize) -> Result<(), AdmitFault>
        requires form { self.now.head.form ≡ SomeRun }
        requires inside { point < parts.points (parts.head (S.cells self.now.source.now)) }
        ensures { result ≡ passed (admission.begin_trials (S.cells self.now.source.now) point) }
    {
        if self.choice_mode(point) == 0 {
            return Ok(());
        }
        let states = self.head.states as usize;
        if self.step_from(self.choice_step(point)) != point / states {
            return Err(AdmitFault::StepElsewhere { point });
        }
        if self.edge_from(self.choice_edge(point)) != point % states {
            return Err(AdmitFault::EdgeElsewhere { point });
        }
        Ok(())
    }
}

impl<'a, S: Source, K: RankKind> Ranked<'a, S, K> {
    // The tests of the points' choices and lines, in order.
    pub(crate) fn choices_hold(
        &self,
        assumed: &mut Table,
        conclusions: &mut Table,
    ) -> Result<(), AdmitFault>
        requires { self.now.view.head.form ≡ SomeRun }
        ensures { result ≡ passed (flat_map (admission.choice_trials (S.cells self.now.view.source.now) K.kind) (each (parts.points (parts.head (S.cells self.now.view.source.now))) (λ p. p))) }
    {
        let mut judged = Ok(());
        'search: for point in 0..self.view.points() {
            if let Err(fault) = self.view.choice_begins(point) {
                judged = Err(fault);
                break 'search;
            }
            self.view.point_hypotheses(point, assumed);
            let hypotheses = assumed.as_slice();
            self.point_claims(point, hypotheses, conclusions);
            for (line, conclusion) in conclusions.as_slice().iter().enumerate() {
                let at = self.view.point_line_at(point, line);
                if !self.view.judge(at, hypotheses, conclusion) {
                    judged = Err(AdmitFault::PointLine { point, line });
                    break 'search;
                }
            }
        }
        judged
    }
}
