// The text of a refusal.
ghost use Rattle.std.specs.Prelude.{◌≡◌, Some};
ghost use Rattle.listing.specs.Refusals.{cause_text, refusal_text};

use fields::refusal::Refusal;
use std::fmt;

/// What a refusal is for.
fn cause(refusal: Refusal) -> &'static str
    ensures { result.now ≡ cause_text refusal }
{
    match refusal {
        Refusal::FieldPastInput => "a field runs past the input",
        Refusal::TagNotAllowed => "a field's tag is unknown, repeated, misplaced or missing",
        Refusal::LengthNotAllowed => "a field's length is not allowed",
        Refusal::CellAddressNotAllowed => "a cell address is not allowed",
        Refusal::KindOrRegisterNotAllowed => "a kind or register byte is not allowed",
        Refusal::NumberNotAllowed => "a number k or j is not allowed",
        Refusal::RuleOrProcessorAbsent => "the rule is not 1 to 8, or the processor is absent",
        Refusal::FetchAtEnd => "a fetch at the end of the code",
        Refusal::BufferFull => "a fetch with sixteen entries",
        Refusal::PositionOrGuessNotAllowed => "the position or the guess is not allowed",
        Refusal::KindDoesNotSuitRule => "the entry's kind does not suit the rule",
        Refusal::StepAlreadyMade => "the step was already made",
        Refusal::OperandWanting => "the entry's own register, address or data is wanting",
        Refusal::HeldBack => "an older entry holds it back",
        Refusal::RunUnfinished => "the run was closed unfinished",
        Refusal::AreaTooShort => "the output area is too short",
        Refusal::WitnessNotAccepted => "the witness is not accepted",
        Refusal::Absent => "the processor, register or cell is absent",
    }
}

/// A refusal as text: its number and what it is for.
#[derive(Clone, Copy)]
pub struct RefusalText(pub Refusal);

impl fmt::Display for RefusalText {
    ghost output = { λ r. Some (refusal_text r.0) };

    fn fmt<W: fmt::Write>(&self, f: &mut fmt::Formatter<W>) -> fmt::Result {
        let number = u8::from(self.0);
        let cause = cause(self.0);
        write!(f, "refused {number}: {cause}")
    }
}
