// The base program as a function: from the bytes of a puzzle's words to its DIMACS text, or to the line of a refusal.
#![tactic(auto)]

pub mod program;
mod refused;
mod words;
