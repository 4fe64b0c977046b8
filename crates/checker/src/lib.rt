// The checker of witnesses.
#![tactic(auto)]

pub mod axiom;
pub mod check;
pub mod evaluated;
pub mod fixed;
mod inst_order;
mod load_value;
mod order;
pub mod paths;
pub mod position;
mod sources;
