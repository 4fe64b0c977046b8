// Why a witness is not accepted.
use listing::access::AccessText;
use std::fmt;
use thiserror::Error;
use witness::record::Access;

/// The store that a load would have to name, or the start.
#[derive(Clone, Copy, Debug)]
pub struct YoungestText(pub Option<Access>);

impl fmt::Display for YoungestText {
    fn fmt<W: fmt::Write>(&self, f: &mut fmt::Formatter<W>) -> fmt::Result {
        match self.0 {
            None => f.write_str("the start"),
            Some(
                Access {
                    processor,
                    position,
                },
            ) => write!(
                f,
                "the store of processor {processor} at position {position}"
            ),
        }
    }
}

/// What the first failing test found, by path, record, load or pair of accesses.
#[derive(Debug, Drop, Error)]
pub enum Reason {
    #[error("Path: {paths} paths for {processors} processors")]
    PathCount {
        paths: usize,
        processors: usize,
    },
    /// The path does not go on as its events lead.
    #[error("Path: the path of processor {processor} does not go on as it leads at position {position}")]
    PathBreaks {
        processor: usize,
        position: usize,
    },
    /// The path stops short of the end of the code.
    #[error("Path: the path of processor {processor} does not reach the end")]
    PathStops {
        processor: usize,
    },
    #[error("Path: {records} source records for {loads} loads")]
    RecordCount {
        records: usize,
        loads: usize,
    },
    /// An access of the order that the paths do not have.
    #[error("Order: number {number} of the order, {access}, is no access of the paths")]
    Stranger {
        number: usize,
        access: AccessText,
    },
    /// An access that the order has twice.
    #[error("Order: number {number} of the order, {access}, stands there before")]
    Repeated {
        number: usize,
        access: AccessText,
    },
    /// An access of the paths that the order does not have.
    #[error("Order: the access {access} does not stand in the order")]
    Missing {
        access: AccessText,
    },
    /// A load whose named source is not the start with its value, nor a store to its cell with its data.
    #[error("Source: the load {load} names neither the start with its value nor a store to its cell with its value")]
    WrongSource {
        load: AccessText,
    },
    /// Two accesses that are kept in their order and stand otherwise.
    #[error("InstOrder: {first} is kept before {second}, and the order has them otherwise")]
    WrongOrder {
        first: AccessText,
        second: AccessText,
    },
    /// A load whose named source is not the youngest store that it may see.
    #[error("LoadValue: the load {load} does not name {youngest}, the youngest that it may see")]
    NotYoungest {
        load: AccessText,
        youngest: YoungestText,
    },
}
