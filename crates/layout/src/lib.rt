// What a sheet is made of: its fields, frames, groups and head, the faults of a reader, and in specs/ what they mean.
#![tactic(auto)]

pub mod fault;
pub mod field;
pub mod form;
pub mod frame;
pub mod head;
pub mod head_cells;
pub mod refusal;
