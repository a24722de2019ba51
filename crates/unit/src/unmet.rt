// Why a dossier is not admitted, in the sheet's own terms.
use crate::call::Call;
use crate::claim::{Claim, Point};
use crate::rows::Rows;
use certificate::parts::{choice_of, move_of};
use certificate::written::Move;
use dossier::fault::AdmitFault;
use layout::form::Form;
use sources::source::Source;
use std::fmt;
use thiserror::Error;

#[derive(Clone, Copy, Debug, PartialEq, Eq, Error)]
pub enum Unmet {
    #[error("the sheet is {form} with R = {numbers}, and {} with R = {} is called for", .call.form, .call.ranks)]
    Other {
        form: Form,
        numbers: usize,
        call: Call,
    },
    #[error("no edge from state {state} matches letter {letter}")]
    NoEdge {
        state: usize,
        letter: Letter,
    },
    #[error("start line {line} does not show {claim}")]
    StartLine {
        line: usize,
        claim: Claim,
    },
    #[error("move {number} (step {step}, edge {edge}): line {line} does not show {claim}")]
    MoveLine {
        number: usize,
        step: usize,
        edge: usize,
        line: usize,
        claim: Claim,
    },
    #[error("the shown values do not satisfy {claim}")]
    Shown {
        claim: Claim,
    },
    #[error("{point} chooses step {step}, which begins at place {place}")]
    StepElsewhere {
        point: Point,
        step: usize,
        place: usize,
    },
    #[error("{point} chooses edge {edge}, which begins at state {state}")]
    EdgeElsewhere {
        point: Point,
        edge: usize,
        state: usize,
    },
    #[error("{point}: line {line} does not show {claim}")]
    PointLine {
        point: Point,
        line: usize,
        claim: Claim,
    },
}

impl Unmet {
    // None where the dossier has no such move or point; admission names none.
    pub(crate) fn of<S: Source>(source: &S, fault: AdmitFault, call: Call) -> Option<Unmet> {
        let head = source.head();
        let rows = Rows(head);
        Some(match fault {
            AdmitFault::Other { numbers, .. } => Unmet::Other {
                form: head.form,
                numbers,
                call,
            },
            AdmitFault::NoEdge { state, letter } => Unmet::NoEdge {
                state,
                letter: Letter(letter),
            },
            AdmitFault::StartLine { line } => Unmet::StartLine {
                line,
                claim: rows.of_start_line(line),
            },
            AdmitFault::Shown { row } => Unmet::Shown {
                claim: rows.shown(row),
            },
            AdmitFault::MoveLine { number, line } => {
                move_line(&rows, move_of(source, number)?, number, line)
            }
            AdmitFault::StepElsewhere { point } => step_elsewhere(
                choice_of(source, point)?,
                rows.numbered(point),
            ),
            AdmitFault::EdgeElsewhere { point } => edge_elsewhere(
                choice_of(source, point)?,
                rows.numbered(point),
            ),
            AdmitFault::PointLine { point, line } => Unmet::PointLine {
                point: rows.numbered(point),
                line,
                claim: rows.of_choice(choice_of(source, point)?, line),
            },
        })
    }
}

fn move_line(rows: &Rows, written: Move, number: usize, line: usize) -> Unmet {
    Unmet::MoveLine {
        number,
        step: written.step,
        edge: written.edge,
        line,
        claim: rows.of_move(written, line),
    }
}

// This and the next say of a step and of an edge what differs in every word but the point.
fn step_elsewhere(written: Move, point: Point) -> Unmet {
    Unmet::StepElsewhere {
        point,
        step: written.step,
        place: written.from_place,
    }
}

fn edge_elsewhere(written: Move, point: Point) -> Unmet {
    Unmet::EdgeElsewhere {
        point,
        edge: written.edge,
        state: written.from_state,
    }
}

// A letter: a set of propositions, as a mask.
#[derive(Clone, Copy, Debug, PartialEq, Eq)]
pub struct Letter(pub usize);

impl fmt::Display for Letter {
    fn fmt<W: fmt::Write>(&self, f: &mut fmt::Formatter<W>) -> fmt::Result {
        let letter = self.0;
        if letter == 0 {
            return write!(f, "{letter} (no proposition holds)");
        }
        write!(f, "{letter} (propositions that hold:")?;
        for bit in (0..8usize).filter(|bit| (letter >> *bit) % 2 == 1) {
            write!(f, " {bit}")?;
        }
        write!(f, ")")
    }
}
