// A row that a proof line is to show, or that the shown values are to satisfy, in the sheet's own terms.
use std::fmt;

#[derive(Clone, Copy, Debug, PartialEq, Eq)]
pub struct Point {
    pub place: usize,
    pub state: usize,
    pub number: usize,
}

#[derive(Clone, Copy, Debug, PartialEq, Eq)]
pub enum Claim {
    Start {
        row: usize,
    },
    Guard {
        row: usize,
        step: usize,
    },
    Proposition {
        row: usize,
        edge: usize,
    },
    Region {
        row: usize,
        point: Point,
    },
    Rank {
        row: usize,
        point: Point,
    },
    Fall {
        row: usize,
        mode: usize,
        from: Point,
        to: Point,
    },
    // mode 0: the row -1
    Impossible,
    // mode 0: every other row
    Zero,
}

impl fmt::Display for Point {
    fn fmt<W: fmt::Write>(&self, f: &mut fmt::Formatter<W>) -> fmt::Result {
        let Point {
            place,
            state,
            number,
        } = *self;
        write!(f, "point {number} (place {place}, state {state})")
    }
}

impl fmt::Display for Claim {
    fn fmt<W: fmt::Write>(&self, f: &mut fmt::Formatter<W>) -> fmt::Result {
        match self {
            Claim::Start { row } => write!(f, "start row {row}"),
            Claim::Guard { row, step } => write!(f, "guard row {row} of step {step}"),
            Claim::Proposition { row, edge } => write!(f, "proposition row {row} of edge {edge}"),
            Claim::Region { row, point } => write!(f, "region row {row} of {point}"),
            Claim::Rank { row, point } => write!(f, "rank row {row} of {point}"),
            Claim::Fall {
                row,
                mode,
                from,
                to,
            } => { write!(f, "fall row {row} of mode {mode}, from {from} to {to}") }
            Claim::Impossible => write!(f, "the row -1 of mode 0"),
            Claim::Zero => write!(f, "a zero row of mode 0"),
        }
    }
}
