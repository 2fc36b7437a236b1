// The implications of probes: what a probed colour of a cell is found to imply, as one section of clauses.
#![tactic(auto)]

pub mod call;
mod claims;
mod count;
mod painted;
mod write;
