// Stored cases of calls that take a puzzle, and of clauses as text.
#![tactic(auto)]

pub mod formula;
pub mod model;
pub mod puzzle;
