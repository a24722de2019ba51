// A refusal as the console tells it: its number, its two places, and a sentence about what stands in the sheet.
use crate::misread::Misread;
use crate::unmet::Unmet;
use layout::fault::{OpenFault, Refusal};
use thiserror::Error;

#[derive(Debug, Drop, Error)]
#[error("refused {:02X} ({}, {}): {reason}", .refusal.number, .refusal.first, .refusal.second)]
pub struct Refused {
    pub refusal: Refusal,
    pub reason: Reason,
}

#[derive(Debug, Drop, Error)]
pub enum Reason {
    #[error(transparent)]
    Misread(Misread),
    #[error("the cells are no full sheet")]
    NoSheet,
    // told from the dossier while it is at hand
    #[error(transparent)]
    Unmet(Unmet),
    #[error("no such move or point")]
    NoSuchMove,
}

impl From<Misread> for Refused {
    fn from(misread: Misread) -> Refused {
        Refused {
            refusal: Refusal::from(misread.fault),
            reason: Reason::Misread(misread),
        }
    }
}

impl From<OpenFault> for Refused {
    fn from(fault: OpenFault) -> Refused {
        Refused {
            refusal: Refusal::from(fault),
            reason: Reason::NoSheet,
        }
    }
}
