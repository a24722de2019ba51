// Rank kinds, and the admission of dossiers of any source at any rank kind.
#![tactic(auto)]

pub mod admit;
pub mod admitted;
mod conclude;
mod every_run;
mod falls;
pub mod form_tests;
mod judge;
pub mod kind;
mod line;
mod moves;
mod offset;
pub mod parts;
mod points;
mod propositions;
mod ranked;
mod rows;
mod shown;
mod some_run;
mod standing;
mod table;
mod taken;
mod view;
mod watch;
pub mod written;
