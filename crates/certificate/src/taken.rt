// Rows of a point taken at a step.
ghost use Rattle.std.specs.Prelude.{◌≡◌, ◌+◌, ◌<◌, ◌≤◌, ◌++◌, length};
ghost use Rattle.layout.specs.Layout.{point_rows};
ghost use Rattle.dossier.specs.Dossier as parts;
ghost use Rattle.dossier.specs.Rows.{each};
ghost use Rattle.certificate.specs.Arrays.{rows_of, held};
ghost use Rattle.certificate.specs.Stored.{stored_taken};

use crate::rows::{Row, taken};
use crate::table::Table;
use crate::view::View;
use arrayvec::ArrayVec;
use sources::source::Source;

impl<'a, S: Source> View<'a, S> {
    // The update rows of a step.
    fn updates(&self, step: usize) -> ArrayVec<Row, 6>
        requires { step ≤ 16 }
        ensures { rows_of result.items ≡ each (parts.head (S.cells self.now.source.now)).variables (parts.update (S.cells self.now.source.now) step) }
    {
        let mut rows: ArrayVec<Row, 6> = ArrayVec::new();
        for variable in 0..self.head.variables as usize {
            rows.push(self.update(step, variable));
        }
        rows
    }

    // Pushes the region rows and rank rows of a point, taken at a step.
    pub(crate) fn push_taken(&self, step: usize, point: usize, table: &mut Table)
        requires step { step < self.now.head.steps }
        requires point { point < parts.points (parts.head (S.cells self.now.source.now)) }
        requires room { length (held table.old) + point_rows (parts.head (S.cells self.now.source.now)) ≤ 20 }
        ensures { held table.new ≡ held table.old ++ stored_taken (S.cells self.now.source.now) step (parts.point_at (parts.head (S.cells self.now.source.now)) point) (point_rows (parts.head (S.cells self.now.source.now))) }
    {
        let updates = self.updates(step);
        let width = self.row_width();
        let at = self.point_at(point);
        for i in 0..self.rows_of_point() {
            let row = self.row_at(at + i * width);
            table.push(taken(&row, updates.as_slice()));
        }
    }
}
