// The refusals of the whole product.
ghost use Rattle.std.specs.Prelude.{◌≡◌};
ghost use Rattle.fields.specs.Refusals.{refusal_number};

/// Why a call was refused.
#[derive(Clone, Copy, PartialEq, Eq, PartialOrd, Ord, Debug)]
pub enum Refusal {
    FieldPastInput = 1,
    TagNotAllowed = 2,
    LengthNotAllowed = 3,
    CellAddressNotAllowed = 4,
    KindOrRegisterNotAllowed = 5,
    NumberNotAllowed = 6,
    RuleOrProcessorAbsent = 7,
    FetchAtEnd = 8,
    BufferFull = 9,
    PositionOrGuessNotAllowed = 10,
    KindDoesNotSuitRule = 11,
    StepAlreadyMade = 12,
    OperandWanting = 13,
    HeldBack = 14,
    RunUnfinished = 15,
    AreaTooShort = 16,
    WitnessNotAccepted = 17,
    Absent = 18,
}

impl From<Refusal> for u8 {
    // The number that stands for the refusal.
    ghost from_gives = { λ r n. n ≡ refusal_number r };

    fn from(refusal: Refusal) -> u8 {
        refusal as u8
    }
}
