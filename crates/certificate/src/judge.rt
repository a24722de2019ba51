// The judgement of a proof line in a dossier's cells.
ghost use Rattle.std.specs.Prelude.{◌≡◌, ◌^◌, ◌<◌, ◌≤◌, length};
ghost use Rattle.dossier.specs.Admission as admission;
ghost use Rattle.dossier.specs.Ranges.{Line};
ghost use Rattle.certificate.specs.Arrays.{row_of, rows_of, RowWithin, RowsWithin, wide};

use crate::line::line_holds;
use crate::rows::Row;
use crate::view::View;
use arrayvec::ArrayVec;
use sources::source::Source;

impl<'a, S: Source> View<'a, S> {
    // Whether the line holds whose divisor stands at an index, with its multipliers behind.
    pub(crate) fn judge(&self, at: usize, hypotheses: &[Row], conclusion: &Row) -> bool
        requires inside { at < 2 ^ 32 }
        requires few { length hypotheses.now ≤ 18 }
        requires line { Line (S.cells self.now.source.now) at (length hypotheses.now) }
        requires assumed { RowsWithin wide (rows_of hypotheses.now) }
        requires shown { RowWithin wide (row_of conclusion.now) }
        ensures { result ≡ admission.line_at (S.cells self.now.source.now) at (length hypotheses.now) (rows_of hypotheses.now) (row_of conclusion.now) }
    {
        let divisor = self.cell(at) as i64;
        let mut multipliers: ArrayVec<i64, 18> = ArrayVec::new();
        for k in 0..hypotheses.len() {
            multipliers.push(self.cell(at + 1 + k) as i64);
        }
        line_holds(
            self.head.variables as usize,
            divisor,
            multipliers.as_slice(),
            hypotheses,
            conclusion,
        )
    }
}
