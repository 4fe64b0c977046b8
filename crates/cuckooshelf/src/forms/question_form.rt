// Cases of the form `question Q => ok | refused N`.
ghost use Rattle.std.specs.Prelude.{◌≡◌};
ghost use Rattle.cuckooshelf.specs.Answers.{question_answer};

use super::refused::refused;
use super::{Form, Unanswered, decoded};
use question::question::Question;
use std::alloc::Global;

/// Whether bytes are a question.
pub enum QuestionForm {}

impl Form for QuestionForm {
    ghost right = { λ operands answer. answer ≡ question_answer operands };

    fn answer(heap: Global, operands: &str) -> Result<String, Unanswered> {
        let bytes = decoded(heap, operands)?;
        let mut question = Question::new();
        let answer = match question.read(&bytes) {
            Ok(()) => String::from_str(heap, "ok")?,
            Err(refusal) => refused(heap, refusal)?,
        };
        Ok(answer)
    }
}
