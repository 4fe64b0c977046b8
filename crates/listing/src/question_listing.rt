// The listing of a question.
use super::instruction::InstructionText;
use super::refusal::RefusalText;
use instructions::instruction::Instruction;
use question::question::Question;
use std::fmt;

/// The code of one processor: a line for each place.
#[derive(Clone, Copy)]
struct CodeListing<'a>(&'a [Instruction]);

impl fmt::Display for CodeListing<'_> {
    fn fmt<W: fmt::Write>(&self, f: &mut fmt::Formatter<W>) -> fmt::Result {
        let code = self.0;
        if code.is_empty() {
            return write!(f, " has no instructions");
        }
        for (place, instruction) in code.iter().enumerate() {
            write!(f, "\n  {place:<2} {}", InstructionText(*instruction))?;
        }
        Ok(())
    }
}

/// A question: its processors, the cells that do not start at 0, and each processor's code.
#[derive(Clone, Copy)]
pub struct QuestionListing<'a>(pub &'a Question);

impl fmt::Display for QuestionListing<'_> {
    fn fmt<W: fmt::Write>(&self, f: &mut fmt::Formatter<W>) -> fmt::Result {
        let question = self.0;
        match question.processors() {
            1 => write!(f, "1 processor")?,
            n => write!(f, "{n} processors")?,
        }
        for (cell, value) in question.start().iter().enumerate() {
            if *value != 0 {
                write!(f, "\ncell {cell} starts at {value}")?;
            }
        }
        for processor in 0..question.processors() {
            let code = CodeListing(question.code(processor));
            write!(f, "\nprocessor {processor}{code}")?;
        }
        Ok(())
    }
}

/// The question that bytes are, or why they are refused.
#[derive(Clone, Copy)]
pub struct QuestionBytes<'a>(pub &'a [u8]);

impl fmt::Display for QuestionBytes<'_> {
    fn fmt<W: fmt::Write>(&self, f: &mut fmt::Formatter<W>) -> fmt::Result {
        let mut question = Question::new();
        match question.read(self.0) {
            Ok(()) => write!(f, "{}", QuestionListing(&question)),
            Err(refusal) => write!(f, "{}", RefusalText(refusal)),
        }
    }
}
