// The rows of points, guards and starts, as they enter proof lines.
ghost use Rattle.std.specs.Prelude.{◌≡◌, ◌+◌, ◌^◌, ◌<◌, ◌≤◌, ◌++◌, length};
ghost use Rattle.dossier.specs.Admission as admission;
ghost use Rattle.dossier.specs.Dossier as parts;
ghost use Rattle.certificate.specs.Arrays.{held};
ghost use Rattle.certificate.specs.Stored.{stored};

use crate::table::Table;
use crate::view::View;
use sources::source::Source;

impl<'a, S: Source> View<'a, S> {
    // Pushes rows that stand one after the other in the cells, from an index on.
    fn push_stored(&self, at: usize, count: usize, table: &mut Table)
        requires inside { at < 2 ^ 31 }
        requires room { length (held table.old) + count ≤ 20 }
        ensures { held table.new ≡ held table.old ++ stored (S.cells self.now.source.now) at count }
    {
        let width = self.row_width();
        for i in 0..count {
            table.push(self.row_at(at + i * width));
        }
    }

    // Pushes the region rows and rank rows of a point.
    pub(crate) fn push_point(&self, point: usize, table: &mut Table)
        requires inside { point < parts.points (parts.head (S.cells self.now.source.now)) }
        requires room { length (held table.old) ≤ 14 }
        ensures { held table.new ≡ held table.old ++ admission.point_hypotheses (S.cells self.now.source.now) point }
    {
        self.push_stored(self.point_at(point), self.rows_of_point(), table);
    }

    // Pushes the guard rows of a step.
    pub(crate) fn push_guards(&self, step: usize, table: &mut Table)
        requires inside { step ≤ 16 }
        requires room { length (held table.old) ≤ 16 }
        ensures { held table.new ≡ held table.old ++ admission.guard_rows (S.cells self.now.source.now) step }
    {
        let updates = self.head.variables as usize * self.row_width();
        let at = self.step_at(step) + 2 + updates;
        self.push_stored(at, self.head.guards as usize, table);
    }

    fn point(&self, place: usize, state: usize) -> usize
        requires place { place < 2 ^ 31 }
        requires state { state < 2 ^ 31 }
        ensures { result ≡ parts.point_of (S.cells self.now.source.now) place state }
    {
        place * self.head.states as usize + state
    }

    // The point that a move leads from. One function of this and the next would take the two readings as parameters.
    pub(crate) fn first_point(&self, step: usize, edge: usize) -> usize
        requires step { step < self.now.head.steps }
        requires edge { edge < self.now.head.edges }
        ensures value { result ≡ admission.first_point (S.cells self.now.source.now) step edge }
        ensures inside { result < parts.points (parts.head (S.cells self.now.source.now)) }
    {
        self.point(self.step_from(step), self.edge_from(edge))
    }

    // The point that a move leads to.
    pub(crate) fn last_point(&self, step: usize, edge: usize) -> usize
        requires step { step < self.now.head.steps }
        requires edge { edge < self.now.head.edges }
        ensures value { result ≡ admission.last_point (S.cells self.now.source.now) step edge }
        ensures inside { result < parts.points (parts.head (S.cells self.now.source.now)) }
    {
        self.point(self.step_to(step), self.edge_to(edge))
    }

    // Fills a table with the start rows.
    pub(crate) fn start_hypotheses(&self, table: &mut Table)
        ensures { held table.new ≡ admission.start_hypotheses (S.cells self.now.source.now) }
    {
        table.clear();
        self.push_stored(self.start_row_at(0), self.head.start_rows as usize, table);
    }

    // Pushes the region rows and rank rows of the start point.
    pub(crate) fn push_start_point(&self, table: &mut Table)
        requires { length (held table.old) ≤ 14 }
        ensures { held table.new ≡ held table.old ++ admission.start_conclusions (S.cells self.now.source.now) }
    {
        let place = self.head.start_place as usize;
        let state = self.head.start_state as usize;
        self.push_point(self.point(place, state), table);
    }
}
