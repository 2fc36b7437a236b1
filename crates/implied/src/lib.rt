// What a probe's premise and each impact say of a cell's variables.
#![tactic(auto)]

pub mod impact;
pub mod premise;
