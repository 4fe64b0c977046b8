// Readable texts of refusals, instructions, questions and witnesses.
#![tactic(auto)]

pub mod access;
pub mod instruction;
pub mod origin;
pub mod question_listing;
pub mod refusal;
pub mod sample;
pub mod witness_listing;
