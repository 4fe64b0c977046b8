// The eight rules of the machine, on the buffer of one processor.
#![tactic(auto)]

pub mod act;
pub mod change;
pub mod entry;
pub mod matching;
pub mod rule;
mod standing;
