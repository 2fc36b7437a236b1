// Puzzle words read as a whole: the colour set, and a board of numbers.
#![tactic(auto)]

pub mod board;
mod colors;
