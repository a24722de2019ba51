// A field of a frame: how many digits, how they are read, and which values may stand there.

// How a field is written.
#[derive(Clone, Copy)]
pub enum Digits {
    // two digits, from 0
    Two,
    // four digits, two's complement
    Four,
    // eight digits, from 0
    Eight,
    // eight digits, two's complement
    Value,
}

// The values that a field may have.
#[derive(Clone, Copy)]
pub enum Range {
    // from `low` to `high`
    Between { low: i32, high: i32 },
    // from 0 to `high`, with no bit in common with `from`
    Apart { high: i32, from: i32 },
}

// The test of a field's value, which may look at the fields before it in the line.
#[derive(Clone, Copy)]
pub enum Test {
    Fixed { range: Range },
    // `zero` where the line's first field is 0, else `other`
    ByFirst { zero: Range, other: Range },
    // from 0 to one below the line's field `index`
    BelowField { index: usize },
    // from 0 to `high`, with no bit in common with the line's field `index`
    ApartField { high: i32, index: usize },
}

#[derive(Clone, Copy)]
pub struct Field {
    pub digits: Digits,
    pub test: Test,
}
