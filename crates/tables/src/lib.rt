// The table of the lines of a puzzle: its layout, how it is laid, how a line is found in it.
#![tactic(auto)]

pub mod layout;
pub mod table;
