// Stored cases of what is no entry: the reading of a puzzle, and the program as a function.
#![tactic(auto)]

pub mod encode;
pub mod puzzle;
