// The laws of the formats: each function carries a theorem in its contract.
#![tactic(auto)]

pub mod questions;
pub mod witnesses;
pub mod worked;
