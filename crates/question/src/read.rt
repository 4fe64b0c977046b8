// A question from its bytes.
ghost use Rattle.std.specs.Prelude.{◌≡◌, true, [], length, is_err, if◌then◌else◌, Ok, Err, MatchResult};
ghost use Rattle.fields.specs.declared.refusal.Refusal.TheVariants.{LengthNotAllowed};
ghost use Rattle.fields.specs.Places.{answered, filled, read_as};
ghost use Rattle.fields.specs.Rows.{TakesIn};
ghost use Rattle.question.specs.Cells.{cells_from, cells_fit, zeros};
ghost use Rattle.question.specs.Codes.{code_of, code_fits};
ghost use Rattle.question.specs.Litmus.{Litmus};
ghost use Rattle.question.specs.Read.{Draft as Known, no_fields, question_format, question_of};
ghost use Rattle.question.specs.Views.{instructions_of, litmus_of, draft_of, cell_cut, processor_cut};

use super::code::Code;
use super::decode::read_instruction;
use super::draft::Draft;
use super::field::Field;
use super::question::Question;
use bounded::vector::Bounded;
use fields::field::Split;
use fields::records::split_records;
use fields::refusal::Refusal;
use fields::row::{RowReader, read_row};

/// The sixteen start values from the contents of a cell field.
fn read_cells(contents: &[u8]) -> Result<[u16; 16], Refusal>
    ensures { result ≡ (if cells_fit (length contents.now) then cells_from 0 zeros contents.now else Err LengthNotAllowed) }
{
    let records = split_records::<3>(contents, 16)?;
    let mut cells = [0; 16];
    let mut least = 0;
    for [address, high, low] in records {
        if *address < least || *address > 15 {
            return Err(Refusal::CellAddressNotAllowed);
        }
        cells[usize::from(*address)] = u16::from_be_bytes([*high, *low]);
        least = *address + 1;
    }
    Ok(cells)
}

/// A processor's code from the contents of its field.
fn read_code(contents: &[u8]) -> Result<Code, Refusal>
    ensures { read_as instructions_of result ≡ (if code_fits (length contents.now) then code_of contents.now else Err LengthNotAllowed) }
{
    let records = split_records(contents, 16)?;
    let mut instructions = Code::empty().instructions;
    for record in records {
        instructions.push(read_instruction(record, records.len())?);
    }
    Ok(Code { instructions })
}

impl Draft {
    /// Takes in a cell field, which comes first.
    fn add_cells(&mut self, contents: &[u8]) -> Result<(), Refusal>
        ensures { TakesIn question_format (draft_of self.old) (cell_cut contents.now) result (draft_of self.new) }
    {
        if self.start.is_some() || self.processors.len() > 0 {
            return Err(Refusal::TagNotAllowed);
        }
        self.start = Some(read_cells(contents)?);
        Ok(())
    }

    /// Takes in a processor field, of which there are at most four.
    fn add_processor(&mut self, contents: &[u8]) -> Result<(), Refusal>
        ensures { TakesIn question_format (draft_of self.old) (processor_cut contents.now) result (draft_of self.new) }
    {
        if self.processors.len() >= 4 {
            return Err(Refusal::TagNotAllowed);
        }
        self.processors.push(read_code(contents)?);
        Ok(())
    }
}

impl RowReader for Draft {
    type Whole = Question;

    ghost Known = { Known };

    ghost Meaning = { Litmus };

    ghost format = { question_format };

    ghost nothing = { no_fields };

    ghost known = { draft_of };

    ghost meaning = { litmus_of };

    fn empty() -> Draft {
        Draft {
            start: None,
            processors: Bounded::new(Code::empty()),
        }
    }

    fn take(&mut self, field: Split<'_>) -> Result<(), Refusal> {
        match Field::try_from(field)? {
            Field::Cells(contents) => self.add_cells(contents),
            Field::Processor(contents) => self.add_processor(contents),
        }
    }

    fn finish(self) -> Result<Question, Refusal> {
        if self.processors.len() == 0 {
            return Err(Refusal::TagNotAllowed);
        }
        Ok(Question {
            start: self.start.unwrap_or([0; 16]),
            processors: self.processors,
        })
    }
}

impl Question {
    /// Reads a question into this place; refused bytes leave the place as it was.
    pub fn read(&mut self, bytes: &[u8]) -> Result<(), Refusal>
        ensures answer { result ≡ answered (question_of bytes.now) }
        ensures place { litmus_of self.new ≡ filled (litmus_of self.old) (question_of bytes.now) }
        ensures same { is_err result ≡ true → self.new ≡ self.old }
    {
        let question = read_row::<Draft>(bytes)?;
        *self = question;
        Ok(())
    }
}
