// Reading a line: its maximal runs.
#![tactic(auto)]

pub mod line;
