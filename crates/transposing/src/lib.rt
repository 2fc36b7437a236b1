// A grid's columns as rows.
#![tactic(auto)]

mod columns;
pub mod transpose;
