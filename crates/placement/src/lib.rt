// Families 1 to 6: the positions of a line's blocks.
#![tactic(auto)]

mod line;
mod overlap;
pub mod rule;
pub mod section;
