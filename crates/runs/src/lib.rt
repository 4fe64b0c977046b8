// Whole runs: steps from bytes, and what comes of a list of steps over a memory.
#![tactic(auto)]

pub mod record;
pub mod step_bytes;
pub mod whole;
