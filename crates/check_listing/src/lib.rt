// What a check of a witness found, as text.
#![tactic(auto)]

pub mod accesses;
mod reason;
mod reason_search;
pub mod verdict_listing;
