// What the console answers to a command, done or not.
use crate::description::Description;
use crate::mistake::Mistake;
use crate::refused::Refused;
use std::alloc::AllocError;
use std::fmt;
use thiserror::Error;

#[derive(Clone, Copy)]
pub enum Answer {
    Read { cells: usize },
    BuiltIn { cells: usize },
    Described(Description),
    Admitted { lines: usize },
}

#[derive(Debug, Drop, Error)]
pub enum Failure<'a> {
    #[error(transparent)]
    Refused(#[from] Refused),
    #[error("error: {0}")]
    Mistaken(#[from] Mistake<'a>),
    #[error("error: out of memory")]
    Memory(#[from(alloc)] AllocError),
}

impl fmt::Display for Answer {
    fn fmt<W: fmt::Write>(&self, f: &mut fmt::Formatter<W>) -> fmt::Result {
        match self {
            Answer::Read { cells } => write!(f, "read {cells} cells"),
            Answer::BuiltIn { cells } => write!(f, "built-in dossier, {cells} cells"),
            Answer::Described(description) => write!(f, "{description}"),
            Answer::Admitted { lines } => write!(f, "admitted after {lines} proof lines"),
        }
    }
}
