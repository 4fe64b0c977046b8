// Cases of the form `run Q STEPS => ANSWERS END`.
use super::super::memories::MemoryKind;
use super::super::run_texts::answer::RunWords;
use super::refused::refused;
use super::{Form, Unanswered, decoded};
use machine::step::Step;
use question::question::Question;
use runs::step_bytes::steps_of;
use std::alloc::{AllocError, Global};

/// What comes of a run.
pub enum RunForm {}

/// What comes of the steps over a memory, in words.
fn words(
    heap: Global,
    memory: MemoryKind,
    question: &Question,
    steps: &[Step],
) -> Result<String, AllocError> {
    let record = memory.run_steps(heap, question, steps)?;
    format!(in heap; "{}", RunWords(&record))
}

/// What comes of the steps, in words; both answers where the memories differ.
fn over_both(heap: Global, question: &Question, steps: &[Step]) -> Result<String, AllocError> {
    let table = words(heap, MemoryKind::Table, question, steps)?;
    let list = words(heap, MemoryKind::List, question, steps)?;
    if table.as_str() == list.as_str() {
        return Ok(table);
    }
    format!(in heap; "over the table {table} but over the list {list}")
}

/// The answer to the question and the steps that two operands state.
fn answer_to(heap: Global, question: &str, steps: &str) -> Result<String, Unanswered> {
    let question_bytes = decoded(heap, question)?;
    let step_bytes = decoded(heap, steps)?;
    let steps = steps_of(heap, &step_bytes)?.ok_or(Unanswered::Malformed)?;
    let mut question = Question::new();
    let answer = match question.read(&question_bytes) {
        Ok(()) => over_both(heap, &question, &steps)?,
        Err(refusal) => refused(heap, refusal)?,
    };
    Ok(answer)
}

impl Form for RunForm {
    fn answer(heap: Global, operands: &str) -> Result<String, Unanswered> {
        let (question, steps) = operands.split_once(' ').ok_or(Unanswered::Malformed)?;
        answer_to(heap, question, steps)
    }
}
