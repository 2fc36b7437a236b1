// Colour ranges: where in a line each colour can be.
#![tactic(auto)]

pub mod range;
