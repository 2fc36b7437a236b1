// Puzzle words: what they hold, and the walk over their sections.
#![tactic(auto, using(refusals::proofs::Passing::reading))]

pub mod check;
mod section;
