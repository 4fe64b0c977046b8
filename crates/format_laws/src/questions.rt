// Questions are read as they mean.
ghost use Rattle.fields.specs.Rows.{RowsAreReadAsTheyMean};
ghost use Rattle.question.specs.Means.{QuestionsAreReadAsTheyMean, CellContentsRefusedForAnAddress, CodeRefusedForItsFirstFault, InstructionRefusedForItsFirstFault};
ghost use Rattle.question.specs.Read.{question_format, no_fields};

/// Accepted are exactly the well-formed strings of bytes, as what they mean.
pub fn questions_are_read_as_they_mean() -> u8
    ensures { QuestionsAreReadAsTheyMean }
{
    0
}

/// The refusal of a question is its first fault: fields front to back, each by past input, tag, length, contents; a missing field last.
/// An instruction is tested for its kind and registers, then for its numbers.
pub fn questions_are_refused_for_their_first_fault() -> u8
    ensures rows { RowsAreReadAsTheyMean question_format no_fields }
    ensures cells { CellContentsRefusedForAnAddress }
    ensures code { CodeRefusedForItsFirstFault }
    ensures instructions { InstructionRefusedForItsFirstFault }
{
    0
}
