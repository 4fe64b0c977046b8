// Theorems about verdicts, in contracts of functions that do nothing else.
#![tactic(auto)]

pub mod verdicts;
pub mod worked;
