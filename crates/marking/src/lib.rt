// Marking an answer to a question.
#![tactic(auto)]

pub mod answer;
pub mod fault;
pub mod mark;
