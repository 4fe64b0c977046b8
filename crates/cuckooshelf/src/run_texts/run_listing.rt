// The listing of a run.
use super::steps::StepText;
use fields::refusal::Refusal;
use hexadecimal::encode::HexText;
use listing::origin::Origin;
use listing::refusal::RefusalText;
use listing::witness_listing::WitnessBytes;
use machine::step::Step;
use memory::cell::{Cell, Mark};
use runs::record::{Record, Results};
use std::fmt;

/// The answer to a step.
#[derive(Clone, Copy)]
struct AnswerText(Result<u8, Refusal>);

impl fmt::Display for AnswerText {
    fn fmt<W: fmt::Write>(&self, f: &mut fmt::Formatter<W>) -> fmt::Result {
        match self.0 {
            Ok(removed) => write!(f, "removed {removed}"),
            Err(refusal) => write!(f, "{}", RefusalText(refusal)),
        }
    }
}

/// The registers, a line for each processor.
#[derive(Clone, Copy)]
struct RegisterLines<'a>(&'a [u16]);

impl fmt::Display for RegisterLines<'_> {
    fn fmt<W: fmt::Write>(&self, f: &mut fmt::Formatter<W>) -> fmt::Result {
        for (processor, registers) in self.0.chunks(8).enumerate() {
            write!(f, "\nprocessor {processor}:")?;
            for (register, value) in registers.iter().enumerate() {
                write!(f, " r{register} = {value}")?;
            }
        }
        Ok(())
    }
}

/// The cells that are not 0 from the start, a line for each.
#[derive(Clone, Copy)]
struct CellLines<'a>(&'a [Cell]);

impl fmt::Display for CellLines<'_> {
    fn fmt<W: fmt::Write>(&self, f: &mut fmt::Formatter<W>) -> fmt::Result {
        for (address, cell) in self.0.iter().enumerate() {
            let Cell { value, mark } = *cell;
            if value != 0 || mark != Mark::Start {
                write!(f, "\ncell {address} = {value} {}", Origin::from(mark))?;
            }
        }
        Ok(())
    }
}

/// The results of a finished run: registers, cells and the witness, readably and as bytes.
#[derive(Clone, Copy)]
struct ResultLines<'a>(&'a Results);

impl fmt::Display for ResultLines<'_> {
    fn fmt<W: fmt::Write>(&self, f: &mut fmt::Formatter<W>) -> fmt::Result {
        let registers = RegisterLines(&self.0.registers);
        let cells = CellLines(&self.0.cells);
        let witness = WitnessBytes(&self.0.witness);
        let bytes = HexText(&self.0.witness);
        write!(
            f,
            "finished{registers}{cells}\nthe witness:\n{witness}\nits bytes: {bytes}"
        )
    }
}

/// A run: a line for each step with its answer, whether it is finished, and its results if it is.
#[derive(Clone, Copy)]
pub struct RunListing<'a> {
    pub steps: &'a [Step],
    pub record: &'a Record,
}

impl fmt::Display for RunListing<'_> {
    fn fmt<W: fmt::Write>(&self, f: &mut fmt::Formatter<W>) -> fmt::Result {
        let answers = &self.record.answers;
        for (index, (step, answer)) in self.steps.iter().zip(answers.iter()).enumerate() {
            writeln!(
                f,
                "step {index}: {}: {}",
                StepText(*step),
                AnswerText(*answer)
            )?;
        }
        match &self.record.results {
            None => f.write_str("not finished"),
            Some(results) => write!(f, "{}", ResultLines(results)),
        }
    }
}
