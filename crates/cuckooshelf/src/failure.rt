// Why a command does not do what it is called for.
use super::reading::Refused;
use std::alloc::AllocError;
use std::io;
use thiserror::Error;

/// What went wrong.
#[derive(Debug, Drop, Error)]
pub enum Failure {
    #[error("no command is called {0:?}; cuckooshelf help lists the commands")]
    UnknownCommand(String),
    #[error("the command wants a file; cuckooshelf help shows how to call it")]
    FileWanting,
    #[error("the command wants two files; cuckooshelf help shows how to call it")]
    FilesWanting,
    /// An option without the name of a memory.
    #[error("two files, then at most --memory table or --memory list")]
    MemoryWanting,
    #[error("no option is called {0:?}; --memory is one")]
    UnknownOption(String),
    #[error("no memory is called {0:?}; table and list are")]
    UnknownMemory(String),
    #[error("no memory model is called {0:?}; gam and sc are")]
    UnknownModel(String),
    #[error("no answer is called {0:?}; steps and witness are")]
    UnknownAnswer(String),
    /// A marking without question, kind of answer and answer.
    #[error("mark wants a question, then steps or witness, then the answer; cuckooshelf help shows how to call it")]
    MarkWanting,
    /// A check without model, question and witness.
    #[error("check wants gam or sc, then two files; cuckooshelf help shows how to call it")]
    CheckWanting,
    /// The file of steps ends inside of a step.
    #[error("{0} ends inside of a step: a step is four bytes")]
    PartOfStep(String),
    #[error("too many arguments; cuckooshelf help shows how to call a command")]
    TooManyOperands,
    /// The file could not be read.
    #[error("cannot read {0}: {1}")]
    Unreadable(String, io::Error),
    /// Bytes are refused, which is an answer: it is printed, with status 0.
    #[error("{0}")]
    Refused(#[from] Refused),
    /// Some lines of a file of cases differ.
    #[error("lines differ")]
    Differing,
    #[error("no memory left")]
    Memory(#[from(alloc)] AllocError),
    /// The arguments could not be read.
    #[error("cannot read the arguments: {0}")]
    Arguments(io::Error),
    /// The output could not be written.
    #[error("cannot write the output: {0}")]
    Output(#[from] io::Error),
}
