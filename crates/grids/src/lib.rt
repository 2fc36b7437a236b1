// Grids of colour bytes: reading one into puzzle words.
#![tactic(auto)]

mod clues;
pub mod grid;
mod masks;
pub mod read;
pub mod size;
