// The rows of the lines of moves and of points: what the lines assume and what they are to show.
ghost use Rattle.std.specs.Prelude.{[], ◌≡◌, ◌+◌, ◌<◌, ◌≤◌, true, ◌++◌, length};
ghost use Rattle.layout.specs.declared.form.Form.TheVariants.{SomeRun};
ghost use Rattle.dossier.specs.Admission as admission;
ghost use Rattle.dossier.specs.Dossier as parts;
ghost use Rattle.certificate.specs.Arrays.{rows_of, held};
ghost use Rattle.certificate.specs.Falls.{Begins};

use crate::falls::push_zeros;
use crate::kind::RankKind;
use crate::ranked::Ranked;
use crate::rows::{Row, minus_one};
use crate::table::Table;
use crate::view::View;
use sources::source::Source;

// Fills a table with what lines are to show in mode 0: the row -1, then zero rows.
fn impossible(count: usize, table: &mut Table)
    requires some { 1 ≤ count }
    requires room { count ≤ 20 }
    ensures { held table.new ≡ admission.impossible [] count }
{
    table.clear();
    table.push(minus_one());
    push_zeros(count - 1, table);
}

impl<'a, S: Source> View<'a, S> {
    // Fills a table with the hypotheses of a move's lines.
    pub(crate) fn move_hypotheses_of(&self, step: usize, edge: usize, table: &mut Table)
        requires step { step < self.now.head.steps }
        requires edge { edge < self.now.head.edges }
        ensures { held table.new ≡ admission.move_hypotheses_of (S.cells self.now.source.now) step edge }
    {
        table.clear();
        self.push_point(self.first_point(step, edge), table);
        self.push_guards(step, table);
        self.push_edge_rows(edge, self.step_from(step), table);
    }

    // Fills a table with the hypotheses of a point's lines.
    pub(crate) fn point_hypotheses(&self, point: usize, table: &mut Table)
        requires { point < parts.points (parts.head (S.cells self.now.source.now)) }
        ensures { held table.new ≡ admission.point_hypotheses (S.cells self.now.source.now) point }
    {
        table.clear();
        self.push_point(point, table);
    }
}

impl<'a, S: Source, K: RankKind> Ranked<'a, S, K> {
    // Fills a table with what the lines of a move are to show. The hypotheses begin with the rows of its first point, which is asked here and
    // in what is called: the fact is of a slice and a move together, so that a type for it would be these parameters once more.
    pub(crate) fn move_claims(&self, index: usize, hypotheses: &[Row], table: &mut Table)
        requires inside { index < admission.moves (S.cells self.now.view.source.now) }
        requires begins { Begins (rows_of hypotheses.now) (admission.point_hypotheses (S.cells self.now.view.source.now) (admission.first_point (S.cells self.now.view.source.now) (admission.move_step (S.cells self.now.view.source.now) index) (admission.move_edge (S.cells self.now.view.source.now) index))) }
        ensures { held table.new ≡ admission.move_claims (S.cells self.now.view.source.now) K.kind index }
    {
        let edges = self.view.head.edges as usize;
        let mode = self.view.move_mode(index);
        if mode == 0 {
            impossible(self.view.conclusions_of(), table);
        } else {
            table.clear();
            self.push_conclusions(mode, index / edges, index % edges, hypotheses, table);
        }
    }

    // Fills a table with what the lines of a point are to show where its choice can be made. The hypotheses begin with the rows of the move's
    // first point.
    fn choice_claims(
        &self,
        mode: usize,
        step: usize,
        edge: usize,
        hypotheses: &[Row],
        table: &mut Table,
    )
        requires step { step < self.now.view.head.steps }
        requires edge { edge < self.now.view.head.edges }
        requires begins { Begins (rows_of hypotheses.now) (admission.point_hypotheses (S.cells self.now.view.source.now) (admission.first_point (S.cells self.now.view.source.now) step edge)) }
        ensures { held table.new ≡ admission.choice_conclusions (S.cells self.now.view.source.now) K.kind mode step edge }
    {
        table.clear();
        self.view.push_guards(step, table);
        self.view
            .push_edge_rows(edge, self.view.step_from(step), table);
        self.push_conclusions(mode, step, edge, hypotheses, table);
    }

    // Fills a table with what the lines of a point are to show, where its choice begins there. The hypotheses are the point's rows.
    pub(crate) fn point_claims(&self, point: usize, hypotheses: &[Row], table: &mut Table)
        requires form { self.now.view.head.form ≡ SomeRun }
        requires inside { point < parts.points (parts.head (S.cells self.now.view.source.now)) }
        requires step_begins { admission.step_begins (S.cells self.now.view.source.now) point ≡ true }
        requires edge_begins { admission.edge_begins (S.cells self.now.view.source.now) point ≡ true }
        requires assumed { rows_of hypotheses.now ≡ admission.point_hypotheses (S.cells self.now.view.source.now) point }
        ensures { held table.new ≡ admission.point_claims (S.cells self.now.view.source.now) K.kind point }
    {
        let mode = self.view.choice_mode(point);
        if mode == 0 {
            impossible(self.view.point_conclusions(), table);
        } else {
            let step = self.view.choice_step(point);
            let edge = self.view.choice_edge(point);
            self.choice_claims(mode, step, edge, hypotheses, table);
        }
    }
}
