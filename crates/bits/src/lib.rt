// The bits of a 32-bit word: a cell's mask, a set of colours.
#![tactic(auto)]

pub mod mask;
pub mod powers;
