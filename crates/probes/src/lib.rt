// Probe words: what they hold, and the walk over them.
#![tactic(auto, using(refusals::proofs::Passing::reading))]

pub mod parts;
pub mod read;
