// What came of a run, in the words of a case.
use fields::refusal::Refusal;
use hexadecimal::encode::HexText;
use memory::cell::{Cell, Mark};
use runs::record::{Record, Results};
use std::fmt;

/// Writes items by commas.
fn write_items<W: fmt::Write, T, D: fmt::Display + Copy, F: Fn(&T) -> D>(
    f: &mut fmt::Formatter<W>,
    items: &[T],
    text: F,
) -> fmt::Result
    requires { F.IsAlwaysCallable text }
{
    for (index, item) in items.iter().enumerate() {
        if index > 0 {
            f.write_str(",")?;
        }
        write!(f, "{}", text(item))?;
    }
    Ok(())
}

/// The number of entries that a step removed, or the number of its refusal.
#[derive(Clone, Copy)]
struct AnswerWord(Result<u8, Refusal>);

impl fmt::Display for AnswerWord {
    fn fmt<W: fmt::Write>(&self, f: &mut fmt::Formatter<W>) -> fmt::Result {
        match self.0 {
            Ok(removed) => write!(f, "{removed}"),
            Err(refusal) => write!(f, "r{}", u8::from(refusal)),
        }
    }
}

/// The answers to steps by commas; `-` for no steps.
#[derive(Clone, Copy)]
struct AnswerWords<'a>(&'a [Result<u8, Refusal>]);

impl fmt::Display for AnswerWords<'_> {
    fn fmt<W: fmt::Write>(&self, f: &mut fmt::Formatter<W>) -> fmt::Result {
        if self.0.is_empty() {
            return f.write_str("-");
        }
        write_items(f, self.0, |answer| AnswerWord(*answer))
    }
}

/// Eight registers by commas for each processor, processors by `/`.
#[derive(Clone, Copy)]
struct RegisterWords<'a>(&'a [u16]);

impl fmt::Display for RegisterWords<'_> {
    fn fmt<W: fmt::Write>(&self, f: &mut fmt::Formatter<W>) -> fmt::Result {
        for (processor, registers) in self.0.chunks(8).enumerate() {
            if processor > 0 {
                f.write_str("/")?;
            }
            write_items(f, registers, |value| *value)?;
        }
        Ok(())
    }
}

/// A mark as four digits: processor and position, or `ffff` for the start.
#[derive(Clone, Copy)]
struct MarkWord(Mark);

impl fmt::Display for MarkWord {
    fn fmt<W: fmt::Write>(&self, f: &mut fmt::Formatter<W>) -> fmt::Result {
        match self.0 {
            Mark::Start => f.write_str("ffff"),
            Mark::Store {
                processor,
                position,
            } => write!(f, "{processor:02x}{position:02x}"),
        }
    }
}

/// A cell as its value and its mark.
#[derive(Clone, Copy)]
struct CellWord(Cell);

impl fmt::Display for CellWord {
    fn fmt<W: fmt::Write>(&self, f: &mut fmt::Formatter<W>) -> fmt::Result {
        write!(f, "{}:{}", self.0.value, MarkWord(self.0.mark))
    }
}

/// Cells by commas.
#[derive(Clone, Copy)]
struct CellWords<'a>(&'a [Cell]);

impl fmt::Display for CellWords<'_> {
    fn fmt<W: fmt::Write>(&self, f: &mut fmt::Formatter<W>) -> fmt::Result {
        write_items(f, self.0, |cell| CellWord(*cell))
    }
}

/// The results of a finished run.
#[derive(Clone, Copy)]
struct ResultWords<'a>(&'a Results);

impl fmt::Display for ResultWords<'_> {
    fn fmt<W: fmt::Write>(&self, f: &mut fmt::Formatter<W>) -> fmt::Result {
        let witness = HexText(&self.0.witness);
        let registers = RegisterWords(&self.0.registers);
        let cells = CellWords(&self.0.cells);
        write!(f, "finished {witness} {registers} {cells}")
    }
}

/// What came of a run: `ANSWERS unfinished`, or `ANSWERS finished WITNESS REGISTERS CELLS`.
#[derive(Clone, Copy)]
pub struct RunWords<'a>(pub &'a Record);

impl fmt::Display for RunWords<'_> {
    fn fmt<W: fmt::Write>(&self, f: &mut fmt::Formatter<W>) -> fmt::Result {
        let answers = AnswerWords(&self.0.answers);
        match &self.0.results {
            None => write!(f, "{answers} unfinished"),
            Some(results) => write!(f, "{answers} {}", ResultWords(results)),
        }
    }
}
