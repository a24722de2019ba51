// The tests of each form of a certificate.
ghost use Rattle.std.specs.Prelude.{◌≡◌, ℕ, true, [], ◌∷◌, List, ℤ, Result, is_ok};
ghost use Rattle.layout.specs.Forms.{form_number};
ghost use Rattle.layout.specs.Heads.{counts_of};
ghost use Rattle.dossier.specs.Admission as admission;
ghost use Rattle.dossier.specs.Kinds.{Kind};
ghost use Rattle.dossier.specs.Runs.{Endless, followed, EveryRunLaw, WatchFollows, SomeRunLaw};
ghost use Rattle.dossier.specs.declared.fault.AdmitFault.{AdmitFault as Fault};
ghost use Rattle.certificate.specs.Outcomes.{passed};

use crate::admitted::{EveryRun, SomeRun};
use crate::kind::RankKind;
use crate::ranked::Ranked;
use crate::table::Table;
use crate::view::View;
use dossier::fault::AdmitFault;
use layout::form::Form;
use sources::source::Source;

// A form means the outcome of its tests, and what a dossier that passes them promises of its runs.
pub trait FormTests {
    ghost outcome: { Kind → List ℤ → Result ℕ Fault };

    ghost Promise: { List ℤ → Type 0 };

    // The tests of the form in order: the number of proof lines, or the first test that fails.
    fn judge<S: Source, K: RankKind>(source: &S, kind: &K) -> Result<usize, AdmitFault>
        ensures outcome { result ≡ outcome K.RankKind.kind (S.Source.cells source.now) }
        ensures promised { is_ok result ≡ true → Promise (S.Source.cells source.now) };
}

impl<'a, S: Source> View<'a, S> {
    // Whether form and count of rank numbers are those called for.
    fn called_for(&self, form: Form, numbers: usize) -> Result<(), AdmitFault>
        ensures outcome { result ≡ passed (admission.called_by (counts_of self.now.head) (form_number form) numbers ∷ []) }
        ensures form { is_ok result ≡ true → self.now.head.form ≡ form }
        ensures ranks { is_ok result ≡ true → self.now.head.rank_numbers ≡ numbers }
    {
        let ranks = self.head.rank_numbers as usize;
        if self.head.form == form && ranks == numbers {
            Ok(())
        } else {
            Err(AdmitFault::Other {
                form: u16::from(self.head.form) as usize,
                numbers: ranks,
            })
        }
    }
}

// The tests of the every-run form in order: the number of proof lines, or the first test that fails.
fn judge_every_run<S: Source, K: RankKind>(source: &S, kind: &K) -> Result<usize, AdmitFault>
    ensures { result ≡ admission.admit_every_run K.kind (S.cells source.now) }
{
    let view = View::of(source);
    view.called_for(Form::EveryRun, kind.numbers())?;
    view.watch_complete()?;
    let mut assumed = Table::new();
    let mut conclusions = Table::new();
    view.start_lines(&mut assumed, &mut conclusions)?;
    let lines = view.rows_of_point() + view.moves() * view.conclusions_of();
    let ranked = Ranked { view, kind };
    match ranked.failing_line(&mut assumed, &mut conclusions) {
        Some((number, line)) => Err(AdmitFault::MoveLine { number, line }),
        None => Ok(lines),
    }
}

// The tests of the some-run form in order: the number of proof lines, or the first test that fails.
fn judge_some_run<S: Source, K: RankKind>(source: &S, kind: &K) -> Result<usize, AdmitFault>
    ensures { result ≡ admission.admit_some_run K.kind (S.cells source.now) }
{
    let view = View::of(source);
    view.called_for(Form::SomeRun, kind.numbers())?;
    let mut assumed = Table::new();
    let mut conclusions = Table::new();
    view.shown_hold(&mut assumed)?;
    let lines = view.points() * view.point_conclusions();
    let ranked = Ranked { view, kind };
    ranked.choices_hold(&mut assumed, &mut conclusions)?;
    Ok(lines)
}

impl FormTests for EveryRun {
    ghost outcome = { admission.admit_every_run };

    ghost Promise = { λ cells. EveryRunLaw cells × WatchFollows cells };

    fn judge<S: Source, K: RankKind>(source: &S, kind: &K) -> Result<usize, AdmitFault> {
        judge_every_run(source, kind)
    }
}

impl FormTests for SomeRun {
    ghost outcome = { admission.admit_some_run };

    ghost Promise = { λ cells. SomeRunLaw cells × Endless cells (followed cells) };

    fn judge<S: Source, K: RankKind>(source: &S, kind: &K) -> Result<usize, AdmitFault> {
        judge_some_run(source, kind)
    }
}
