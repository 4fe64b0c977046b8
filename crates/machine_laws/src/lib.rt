// Laws of the machine: each function carries theorems in its contract.
#![tactic(auto)]

pub mod refusals;
pub mod steps;
pub mod worked;
