// Whether a model places the blocks: families 1 to 6 tested, with no clause written.
#![tactic(auto)]

mod line;
mod overlap;
pub mod section;
pub mod trial;
