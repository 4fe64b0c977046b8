// Questions: programs of one to four processors over sixteen cells, read from bytes.
#![tactic(auto)]

pub mod code;
pub mod decode;
pub mod draft;
pub mod field;
pub mod question;
pub mod read;
pub mod table;
