// Runs of the machine: open ones take steps, closed ones give results.
#![tactic(auto)]

pub mod closed;
pub mod open;
pub mod order;
pub mod processor;
pub mod registers;
pub mod step;
