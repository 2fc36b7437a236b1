// Models: the picture that an accepted one shows, and the clause that blocks it.
#![tactic(auto)]

mod block;
pub mod call;
mod picture;
