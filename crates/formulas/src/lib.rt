// Clause words of any kind: their check, and the walk over them.
#![tactic(auto, using(refusals::proofs::Passing::reading))]

pub mod check;
pub mod clauses;
mod read;
pub mod word;
