// The tests of a field's value.
ghost use Rattle.std.specs.Prelude.{◌≡◌, ◌<◌, length, pos};
ghost use Rattle.layout.specs.Layout.{range_of, below, count_of};
ghost use Rattle.layout.specs.Cells.{between, holds, writable, passes};

use layout::field::{Digits, Range, Test};
use sources::cells::value_at;

// One below a count, and -1 where it is none.
fn one_below(count: i32) -> i32
    ensures { result ≡ below count }
{
    count.max(0) - 1
}

// The values that a test allows after the line's earlier fields.
pub(crate) fn range_of(test: Test, earlier: &[i32]) -> Range
    ensures { result ≡ range_of test earlier.now }
{
    match test {
        Test::Fixed { range } => range,
        Test::ByFirst { zero, other } => {
            if value_at(earlier, 0) == 0 {
                zero
            } else {
                other
            }
        }
        Test::BelowField { index } => Range::Between {
            low: 0,
            high: one_below(value_at(earlier, index)),
        },
        Test::ApartField { high, index } => Range::Apart {
            high,
            from: value_at(earlier, index),
        },
    }
}

fn between(low: i64, high: i64, value: i64) -> bool
    ensures { result ≡ between low high value }
{
    (low..=high).contains(&value)
}

// The number of a count, 0 where it is negative.
pub(crate) fn count_of(value: i64) -> u64
    ensures { result ≡ count_of value }
{
    value.max(0) as u64
}

pub(crate) fn holds_in(range: Range, value: i64) -> bool
    ensures { result ≡ holds range value }
{
    match range {
        Range::Between { low, high } => between(low as i64, high as i64, value),
        Range::Apart { high, from } => {
            between(0, high as i64, value) && count_of(value) & count_of(from as i64) == 0
        }
    }
}

fn is_writable(digits: Digits, value: i64) -> bool
    ensures { result ≡ writable digits value }
{
    match digits {
        Digits::Two => between(0, 0xff, value),
        Digits::Four => between(-0x8000, 0x7fff, value),
        Digits::Eight => between(0, 0xffff_ffff, value),
        Digits::Value => between(-0x8000_0000, 0x7fff_ffff, value),
    }
}

// Whether a value may stand in a field of these digits and this range.
pub(crate) fn passes_in(digits: Digits, range: Range, value: i64) -> bool
    ensures { result ≡ passes digits range value }
{
    is_writable(digits, value) && holds_in(range, value)
}
