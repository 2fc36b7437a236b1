// Clue arithmetic: a layer of its own, which the clause layers know only by its promises.
#![tactic(auto)]

pub mod clue;
pub mod gap;
pub mod limits;
pub mod meet;
