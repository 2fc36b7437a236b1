// Families 7 and 8: the colours of cells and the positions that cover them. The definitions of 9 and 10 stand here too.
#![tactic(auto)]

pub mod covering;
pub mod given;
pub mod rule;
pub mod section;
mod support;
