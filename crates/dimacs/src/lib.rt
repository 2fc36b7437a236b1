// Clause words as DIMACS text.
#![tactic(auto)]

pub mod call;
mod count;
pub mod digits;
mod write;
