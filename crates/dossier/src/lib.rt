// What a dossier means: rows, steps, letters, proof lines, ranks, admission and runs over whole numbers. The definitions and
// laws are in specs/ and proofs/; the code here is what they speak of.
#![tactic(auto)]

pub mod fall;
pub mod fault;
pub mod refusal;
