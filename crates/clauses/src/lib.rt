// The whole clause buffer of a puzzle.
#![tactic(auto)]

mod buffer;
pub mod call;
