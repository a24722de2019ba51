// Why a case is not answered by a count.
use layout::fault::Refusal;
use thiserror::Error;

#[derive(Clone, Copy, Debug, PartialEq, Eq, Error)]
pub enum Failure {
    #[error("{:02X} ({}, {})", .0.number, .0.first, .0.second)]
    Refused(#[from] Refusal),
    // reading altered a cell that it is to leave as it was
    #[error("a cell altered")]
    CellAltered,
    #[error("another dossier handed back")]
    DossierAltered,
    // opening so many of the cells that were read was answered wrongly
    #[error("wrong answer on opening {0} cells")]
    Opening(usize),
}
