// Refusals, the fields that questions and witnesses are rows of, and the caller's areas.
#![tactic(auto)]

pub mod area;
pub mod field;
pub mod records;
pub mod refusal;
pub mod row;
