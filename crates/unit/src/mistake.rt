// Why a command makes no sense, or not now.
use crate::command::MOST_CELLS;
use thiserror::Error;

#[derive(Clone, Copy, Debug, PartialEq, Eq, Error)]
pub enum Mistake<'a> {
    #[error("unknown command {0}")]
    UnknownCommand(&'a str),
    #[error("read takes a file and may take a count of cells")]
    NoFile,
    #[error("{0} is no count of cells from 0 to {most}", most = MOST_CELLS)]
    NoCellCount(&'a str),
    #[error("{0} is one word too many")]
    OneTooMany(&'a str),
    #[error("cannot open {0}")]
    CannotOpen(&'a str),
    #[error("no dossier")]
    NoDossier,
    #[error("admit takes every-run or some-run and a count of rank numbers")]
    NoCall,
    #[error("{0} is no form: every-run or some-run")]
    NoForm(&'a str),
    #[error("{0} is no count of rank numbers: 1 or 2")]
    NoRanks(&'a str),
}
