// Why the program ends with status 1.
use std::alloc::AllocError;
use std::io;
use thiserror::Error;

/// How the program ends where some outcome is not as its line states it.
const OTHERWISE: &str = "some test is not as stated";

/// What went wrong.
#[derive(Debug, Drop, Error)]
pub enum Failure {
    #[error("call it with a file of litmus tests")]
    Usage,
    #[error("cannot read the file: {0}")]
    Unreadable(io::Error),
    #[error("no memory left")]
    Memory(#[from(alloc)] AllocError),
    #[error("cannot write the output: {0}")]
    Output(#[from] io::Error),
    /// Some test is malformed or not as stated.
    #[error("{}", OTHERWISE)]
    Otherwise,
}
