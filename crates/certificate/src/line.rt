// The test of a proof line.
ghost use Rattle.std.specs.Prelude.{◌≡◌, ℕ, ◌*◌, ◌<◌, ◌≤◌, pos, ◌+ℤ◌, ◌*ℤ◌, ◌≤ℤ◌};
ghost use Rattle.dossier.specs.Lines.{sums, line_holds};
ghost use Rattle.certificate.specs.Arrays.{row_of, rows_of, Within, RowWithin, Multiplied, wide};

use crate::rows::Row;

// A multiplier, a divisor or a coefficient times a number of a row.
pub(crate) fn product(factor: i64, number: i64) -> i64
    requires factor { Within 1048576 factor }
    requires number { Within wide number }
    ensures value { result ≡ factor *ℤ number }
    ensures bounded { Within 36028797018963968 result }
{
    factor * number
}

// Adds a hypothesis times its multiplier, in the columns below a width. The row goes by the index: after a `zip` of `iter_mut` nothing is
// known of what the sums are.
fn add_scaled(sums: &mut Row, width: usize, multiplier: i64, row: &Row)
    requires width { width ≤ 7 }
    requires factor { Within 1048576 multiplier }
    requires numbers { RowWithin wide (row_of row.now) }
    requires room { (j : ℕ) → j < width → Within 612489549322387456 (row_of sums.old j) }
    ensures { (j : ℕ) → j < width → row_of sums.new j ≡ row_of sums.old j +ℤ (multiplier *ℤ row_of row.now j) }
{
    for (j, sum) in sums[..width].iter_mut().enumerate() {
        *sum += product(multiplier, row[j]);
    }
}

// The sums of multipliers times hypotheses, in the columns below a width: a row's constant and the coefficients of its variables.
fn column_sums(width: usize, multipliers: &[i64], hypotheses: &[Row]) -> Row
    requires width { width ≤ 7 }
    requires sum { Multiplied multipliers.now hypotheses.now }
    ensures { (j : ℕ) → j < width → row_of result j ≡ sums multipliers.now (rows_of hypotheses.now) j }
{
    let mut sums = [0; 7];
    for (multiplier, row) in multipliers.iter().zip(hypotheses) {
        add_scaled(&mut sums, width, *multiplier, row);
    }
    sums
}

// Whether a line holds: each coefficient agrees, and the constant suffices.
pub(crate) fn line_holds(
    variables: usize,
    divisor: i64,
    multipliers: &[i64],
    hypotheses: &[Row],
    conclusion: &Row,
) -> bool
    requires variables { variables ≤ 6 }
    requires divisor { (pos 0 ≤ℤ divisor) × (divisor ≤ℤ pos 1048575) }
    requires sum { Multiplied multipliers.now hypotheses.now }
    requires shown { RowWithin wide (row_of conclusion.now) }
    ensures { result ≡ line_holds variables divisor multipliers.now (rows_of hypotheses.now) (row_of conclusion.now) }
{
    let sums = column_sums(variables + 1, multipliers, hypotheses);
    for (sum, number) in sums[1..=variables].iter().zip(&conclusion[1..=variables]) {
        if product(divisor, *number) != *sum {
            return false;
        }
    }
    sums[0] <= product(divisor, conclusion[0])
}
