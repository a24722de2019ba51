// Sources of dossiers: cells told one by one, from a sheet that stands over cells held for reading or from a built-in table.
#![tactic(auto)]

pub mod built_in;
pub mod cells;
pub mod sheet;
pub mod source;
