// Reads the text of a sheet into cells, and opens a list of cells as a sheet.
#![tactic(auto)]

mod checker;
mod checking;
mod due;
pub mod opening;
pub mod read;
mod reader;
mod reading;
mod store;
mod tests_of;
mod walk;
