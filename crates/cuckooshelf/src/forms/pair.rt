// The question and the witness that two operands state.
use super::super::reading::{Refused, read_pair};
use super::{Unanswered, decoded};
use question::question::Question;
use std::alloc::Global;
use witness::witness::Witness;

/// The question and the witness that two operands in hexadecimal are, or which of them is refused.
pub fn pair(
    heap: Global,
    operands: &str,
) -> Result<Result<(Question, Witness), Refused>, Unanswered> {
    let (question, witness) = operands.split_once(' ').ok_or(Unanswered::Malformed)?;
    Ok(read_pair(&decoded(heap, question)?, &decoded(heap, witness)?))
}
