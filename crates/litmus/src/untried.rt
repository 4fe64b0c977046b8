// Why a litmus test is not tried.
use std::alloc::AllocError;
use thiserror::Error;

/// What keeps a test from being tried.
#[derive(Debug, Drop, Error)]
pub enum Untried<'a> {
    /// The line.
    #[error("malformed: {0}")]
    Malformed(&'a str),
    /// The name of the test.
    #[error("{0}: too many witnesses to try")]
    TooMany(&'a str),
    #[error("no memory left")]
    Memory(#[from(alloc)] AllocError),
}
