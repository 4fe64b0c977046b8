// Vectors of fixed capacity.
#![tactic(auto)]

pub mod vector;
