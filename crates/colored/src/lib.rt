// Whether a model colours the cells: families 7 and 8 tested, with no clause written.
#![tactic(auto)]

pub mod claim;
pub mod section;
mod spaces;
mod support;
