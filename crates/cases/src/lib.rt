// The language of stored cases: an entry's name, numbers and repeats.
#![tactic(auto)]

pub mod case;
pub mod entry;
pub mod text;
