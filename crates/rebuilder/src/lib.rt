// The rebuilder: the steps that lead to an accepted witness.
#![tactic(auto)]

pub mod laws;
pub mod rebuild;
mod rebuilding;
