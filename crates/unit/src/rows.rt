// Which row each line of a dossier is to show, told from the numbers of its head.
use crate::claim::{Claim, Point};
use certificate::written::Move;
use layout::head::Head;

#[derive(Clone, Copy)]
pub struct Rows(pub Head);

impl Rows {
    pub(crate) fn point(&self, place: usize, state: usize) -> Point {
        let states = self.0.states as usize;
        Point {
            place,
            state,
            number: place.wrapping_mul(states).wrapping_add(state),
        }
    }

    pub(crate) fn numbered(&self, number: usize) -> Point {
        let states = self.0.states as usize;
        Point {
            place: number / states,
            state: number % states,
            number,
        }
    }

    // A region row or a rank row of a point.
    fn of_point(&self, row: usize, point: Point) -> Claim {
        match row.checked_sub(self.0.region_rows as usize) {
            None => Claim::Region { row, point },
            Some(row) => Claim::Rank { row, point },
        }
    }

    pub(crate) fn of_start_line(&self, line: usize) -> Claim {
        let start = self.point(self.0.start_place as usize, self.0.start_state as usize);
        self.of_point(line, start)
    }

    pub(crate) fn shown(&self, row: usize) -> Claim {
        match row.checked_sub(self.0.start_rows as usize) {
            None => Claim::Start { row },
            Some(row) => self.of_start_line(row),
        }
    }

    // What a line of a move is to show: rows of its last point, then fall rows.
    pub(crate) fn of_move(&self, written: Move, line: usize) -> Claim {
        if written.mode == 0 {
            return impossible(line);
        }
        let last = self.point(written.to_place, written.to_state);
        let rows = self.0.region_rows as usize + self.0.rank_numbers as usize;
        match line.checked_sub(rows) {
            None => self.of_point(line, last),
            Some(row) => Claim::Fall {
                row,
                mode: written.mode,
                from: self.point(written.from_place, written.from_state),
                to: last,
            },
        }
    }

    // What a line of a point is to show: guard rows, proposition rows, then what a line of the move is to show.
    pub(crate) fn of_choice(&self, written: Move, line: usize) -> Claim {
        if written.mode == 0 {
            return impossible(line);
        }
        let Move { step, edge, .. } = written;
        let Some(row) = line.checked_sub(self.0.guards as usize) else {
            return Claim::Guard { row: line, step };
        };
        match row.checked_sub(self.0.propositions as usize) {
            None => Claim::Proposition { row, edge },
            Some(line) => self.of_move(written, line),
        }
    }
}

// Mode 0 of a move or a point.
fn impossible(line: usize) -> Claim {
    if line == 0 {
        Claim::Impossible
    } else {
        Claim::Zero
    }
}
