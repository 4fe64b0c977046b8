// The command `mark`.
use super::super::failure::Failure;
use super::super::files::ReadFiles;
use super::super::mark_text::MarkText;
use super::super::memories::MemoryKind;
use super::super::reading::read_question;
use super::super::words::Unknown;
use super::Command;
use marking::answer::Answer;
use std::str::FromStr;

/// The two kinds of answer.
#[derive(Clone, Copy)]
pub enum AnswerKind {
    Steps,
    Witness,
}

impl FromStr for AnswerKind {
    type Err = Unknown;

    fn from_str(word: &str) -> Result<AnswerKind, Unknown> {
        match word {
            "steps" => Ok(AnswerKind::Steps),
            "witness" => Ok(AnswerKind::Witness),
            _ => Err(Unknown),
        }
    }
}

/// Marks the answer in a file to the question in another.
#[derive(Clone, Copy)]
pub struct MarkAnswer<'a> {
    pub question: &'a str,
    pub kind: AnswerKind,
    pub answer: &'a str,
    pub memory: MemoryKind,
}

impl Command for MarkAnswer<'_> {
    fn run(&self, rt: &HostRuntime) -> Result<(), Failure> {
        let question_bytes = rt.read_bytes(self.question)?;
        let bytes = rt.read_bytes(self.answer)?;
        let question = read_question(&question_bytes)?;
        let answer = match self.kind {
            AnswerKind::Steps => Answer::Steps(&bytes),
            AnswerKind::Witness => Answer::Witness(&bytes),
        };
        rt.println(MarkText(self.memory.mark(&question, answer)))?;
        Ok(())
    }
}
