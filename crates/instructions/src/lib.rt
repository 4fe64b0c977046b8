// Instructions: what they do and what they compute.
#![tactic(auto)]

pub mod instruction;
pub mod register;
