// Witnesses are read as they mean, and what is written is read back.
ghost use Rattle.fields.specs.Rows.{RowsAreReadAsTheyMean};
ghost use Rattle.witness.specs.Means.{WitnessesAreReadAsTheyMean, WrittenWitnessesAreReadBack, WitnessesHaveAtMost466Bytes};
ghost use Rattle.witness.specs.Read.{witness_format, no_fields};

/// Accepted are exactly the encodings of executions within the bounds, as those.
pub fn witnesses_are_read_as_they_mean() -> u8
    ensures { WitnessesAreReadAsTheyMean }
{
    0
}

/// Writing a witness and reading it back gives the same witness; its bytes are at most 466.
pub fn written_witnesses_are_read_back() -> u8
    ensures back { WrittenWitnessesAreReadBack }
    ensures few { WitnessesHaveAtMost466Bytes }
{
    0
}

/// The refusal of a witness is its first fault: fields front to back, each by past input, tag, length; a missing field last.
pub fn witnesses_are_refused_for_their_first_fault() -> u8
    ensures { RowsAreReadAsTheyMean witness_format no_fields }
{
    0
}
