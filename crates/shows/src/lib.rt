// Answers as they are shown: a number, a place and a buffer.
#![tactic(auto)]

pub mod show;
