// Families 9 and 10: what is said of each cell by itself.
#![tactic(auto)]

pub mod once;
pub mod precomputed;
