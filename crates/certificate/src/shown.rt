// The shown values against the rows that they are to satisfy.
ghost use Rattle.std.specs.Prelude.{◌≡◌, ℕ, ◌<◌};
ghost use Rattle.dossier.specs.Admission as admission;
ghost use Rattle.dossier.specs.Dossier as parts;
ghost use Rattle.dossier.specs.Rows.{each};
ghost use Rattle.certificate.specs.Arrays.{rows_of, Within, constant_row};
ghost use Rattle.certificate.specs.Outcomes.{passed};

use crate::rows::{Row, taken_column};
use crate::table::Table;
use crate::view::View;
use arrayvec::ArrayVec;
use dossier::fault::AdmitFault;
use sources::source::Source;

impl<'a, S: Source> View<'a, S> {
    // The shown values, each as a row that is this constant.
    fn shown_values(&self) -> ArrayVec<Row, 6>
        ensures constant { rows_of result.items ≡ each (parts.head (S.cells self.now.source.now)).variables (λ v. constant_row (parts.shown (S.cells self.now.source.now) v)) }
        ensures within { (v : ℕ) → v < (parts.head (S.cells self.now.source.now)).variables → Within 2147483648 (parts.shown (S.cells self.now.source.now) v) }
    {
        let mut values: ArrayVec<Row, 6> = ArrayVec::new();
        for variable in 0..self.head.variables as usize {
            values.push([self.shown(variable) as i64, 0, 0, 0, 0, 0, 0]);
        }
        values
    }

    // Whether the shown values satisfy the start rows, then region rows and rank rows of the start point.
    pub(crate) fn shown_hold(&self, table: &mut Table) -> Result<(), AdmitFault>
        ensures { result ≡ passed (admission.row_trials (S.cells self.now.source.now) 0 (admission.shown_rows (S.cells self.now.source.now))) }
    {
        // a row's value is the constant of the row with each variable replaced by its value
        let values = self.shown_values();
        self.start_hypotheses(table);
        self.push_start_point(table);
        for (row, numbers) in table.as_slice().iter().enumerate() {
            if taken_column(numbers, values.as_slice(), 0) < 0 {
                return Err(AdmitFault::Shown { row });
            }
        }
        Ok(())
    }
}
