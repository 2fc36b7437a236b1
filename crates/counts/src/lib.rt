// How many clauses, literals and words the ten families of a puzzle have, from its lines and masks alone.
#![tactic(auto)]

pub mod call;
mod line;
mod measure;
pub mod total;
mod units;
