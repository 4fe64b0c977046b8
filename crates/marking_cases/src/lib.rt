// Directed cases of checks, rebuilds and marks.
#![tactic(auto)]

mod checks;
mod marks;
