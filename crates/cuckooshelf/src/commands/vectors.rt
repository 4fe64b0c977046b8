// The command `vectors`.
ghost use Rattle.std.specs.Prelude.{◌≡◌, IfOk, IsErrOf, string_bytes, None, Some};
ghost use Rattle.cuckooshelf.specs.Answers.{RightAnswer, is_awaited};
ghost use Rattle.cuckooshelf.specs.Lines.{Judged};
ghost use Rattle.cuckooshelf.specs.declared.forms.Unanswered.TheVariants.{Malformed};

use super::super::failure::Failure;
use super::super::files::ReadFiles;
use super::super::forms::question_form::QuestionForm;
use super::super::forms::run::RunForm;
use super::super::forms::{Form, Unanswered};
use super::Command;
use std::alloc::{AllocError, Global};
use std::fmt;

/// What came of one line.
#[derive(Drop)]
enum Outcome<'a> {
    /// Blank, or a remark.
    NoCase,
    /// A form that is not compared yet.
    Skipped,
    Agrees,
    Differs { expected: &'a str, answer: String },
    Malformed,
}

/// How many lines agree, differ and were skipped.
#[derive(Clone, Copy, Default)]
struct Tally {
    agree: u64,
    differ: u64,
    skipped: u64,
}

impl fmt::Display for Tally {
    fn fmt<W: fmt::Write>(&self, f: &mut fmt::Formatter<W>) -> fmt::Result {
        let Tally {
            agree,
            differ,
            skipped,
        } = *self;
        write!(f, "{agree} agree, {differ} differ, {skipped} skipped")
    }
}

/// Whether this is a form that is not compared yet.
fn awaited(form: &str) -> bool
    ensures { result ≡ is_awaited form.now }
{
    form == "check" || form == "rebuild"
}

/// The answer to a case, by the name of its form.
fn answer(heap: Global, form: &str, operands: &str) -> Result<String, Unanswered>
    ensures answered { IfOk result (λ s. RightAnswer form.now operands.now (Some (string_bytes s))) }
    ensures malformed { IsErrOf result Malformed → RightAnswer form.now operands.now None }
{
    match form {
        "question" => QuestionForm::answer(heap, operands),
        "run" => RunForm::answer(heap, operands),
        _ => Err(Unanswered::Malformed),
    }
}

/// Compares the answer that a line has with the answer to its case.
fn compare(heap: Global, line: &str) -> Result<Outcome<'_>, AllocError>
    ensures { IfOk result (λ o. Judged line.now o) }
{
    if line.is_empty() || line.starts_with('#') {
        return Ok(Outcome::NoCase);
    }
    let Some((form, rest)) = line.split_once(' ') else {
        return Ok(Outcome::Malformed);
    };
    if awaited(form) {
        return Ok(Outcome::Skipped);
    }
    let Some((operands, expected)) = rest.split_once(" => ") else {
        return Ok(Outcome::Malformed);
    };
    match answer(heap, form, operands) {
        Ok(answer) if answer.as_str() == expected => Ok(Outcome::Agrees),
        Ok(answer) => Ok(Outcome::Differs { expected, answer }),
        Err(Unanswered::Malformed) => Ok(Outcome::Malformed),
        Err(Unanswered::Memory(e)) => Err(e),
    }
}

/// Compares each line, prints those that differ, and counts.
fn compare_all(rt: &HostRuntime, text: &str) -> Result<Tally, Failure> {
    let mut tally = Tally::default();
    for (index, line) in text.lines().enumerate() {
        let number = index + 1;
        match compare(rt.alloc(), line.trim())? {
            Outcome::NoCase => {}
            Outcome::Skipped => tally.skipped += 1,
            Outcome::Agrees => tally.agree += 1,
            Outcome::Differs { expected, answer } => {
                println!(rt; "line {number} differs: {line}")?;
                println!(rt; "  expected {expected}, answered {answer}")?;
                tally.differ += 1;
            }
            Outcome::Malformed => {
                println!(rt; "line {number} is malformed: {line}")?;
                tally.differ += 1;
            }
        }
    }
    Ok(tally)
}

/// Compares the cases in a file.
#[derive(Clone, Copy)]
pub struct CompareVectors<'a>(pub &'a str);

impl Command for CompareVectors<'_> {
    fn run(&self, rt: &HostRuntime) -> Result<(), Failure> {
        let text = rt.read_text(self.0)?;
        let tally = compare_all(rt, &text)?;
        println!(rt; "{tally}")?;
        if tally.differ > 0 {
            return Err(Failure::Differing);
        }
        Ok(())
    }
}
