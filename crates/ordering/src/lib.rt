// Ordering rules: which events of a path are kept in their order.
#![tactic(auto)]

pub mod constraints;
mod dependencies;
pub mod gam;
mod nearest;
pub mod pair;
pub mod rule;
pub mod sequential;
