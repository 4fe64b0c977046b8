// Witnesses: paths, sources of loads and the memory order, read from bytes and written to bytes.
#![tactic(auto)]

pub mod draft;
pub mod field;
pub mod read;
pub mod record;
pub mod witness;
pub mod write;
