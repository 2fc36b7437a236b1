// Families 9 and 10 tested, with no clause written.
#![tactic(auto)]

pub mod once;
pub mod precomputed;
