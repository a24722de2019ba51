// Rows that are made of others.
ghost use Rattle.std.specs.Prelude.{◌≡◌, ℕ, ◌<◌, ◌≤◌, [], length, pos, negsuc, ◌≤ℤ◌, slice_index_or};
ghost use Rattle.dossier.specs.Rows as rows;
ghost use Rattle.certificate.specs.Arrays.{row_of, RowWithin, seven, short, long, wide};

use crate::line::product;

// A constant and up to six coefficients. How large the numbers may be is asked by clauses: rows of three bounds stand in one table,
// and a type for each bound would have to be left wherever a row is pushed. All rows of a dossier have as many variables as its head
// tells, which is passed where it is needed: a length in each row would say the same for all of them, and the definitions have none.
pub(crate) type Row = [i64; 7];

pub(crate) fn zero_row() -> Row
    ensures { row_of result ≡ rows.zero_row }
{
    [0; 7]
}

// The row -1.
pub(crate) fn minus_one() -> Row
    ensures { row_of result ≡ rows.minus_one }
{
    [-1, 0, 0, 0, 0, 0, 0]
}

// One row less another, and the constant less a number. By the index: a `zip` of three rows would nest.
pub(crate) fn difference(old: &Row, new: &Row, less: u8) -> Row
    requires old { RowWithin long (row_of old.now) }
    requires new { RowWithin long (row_of new.now) }
    ensures { row_of result ≡ rows.less (rows.difference (row_of old.now) (row_of new.now)) less }
{
    let mut result = [0; 7];
    for (j, number) in result.iter_mut().enumerate() {
        *number = old[j] - new[j];
    }
    result[0] -= less as i64;
    result
}

// A column of a row with each variable replaced by a row. Variable v has number v + 1 of the row, so that both go by v, as the
// definition does: a `zip` would begin at the second number.
pub(crate) fn taken_column(row: &Row, updates: &[Row], column: usize) -> i64
    requires few { length updates.now ≤ 6 }
    requires column { column < 7 }
    requires row { RowWithin short (row_of row.now) }
    requires updates { (v : ℕ) → v < length updates.now → RowWithin wide (row_of (slice_index_or updates.now v [])) }
    ensures { result ≡ rows.taken (length updates.now) (row_of row.now) (λ v. row_of (slice_index_or updates.now v [])) column }
{
    let mut sum = if column == 0 { row[0] } else { 0 };
    for (v, update) in updates.iter().enumerate() {
        let term = product(row[v + 1], update[column]);
        sum += term;
    }
    sum
}

// A row with each variable replaced by its update row.
pub(crate) fn taken(row: &Row, updates: &[Row]) -> Row
    requires few { length updates.now ≤ 6 }
    requires row { RowWithin short (row_of row.now) }
    requires updates { (v : ℕ) → v < length updates.now → RowWithin short (row_of (slice_index_or updates.now v [])) }
    ensures { row_of result ≡ seven (rows.taken (length updates.now) (row_of row.now) (λ v. row_of (slice_index_or updates.now v []))) }
{
    let mut result = [0; 7];
    for (j, number) in result.iter_mut().enumerate() {
        *number = taken_column(row, updates, j);
    }
    result
}
