// The check of a model: 13, 14, 15, 16.
#![tactic(auto)]

pub mod check;
pub mod count;
mod families;
