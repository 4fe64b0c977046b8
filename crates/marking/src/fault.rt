// What keeps an answer from being accepted.
ghost use Rattle.std.specs.Prelude.{◌≡◌};
ghost use Rattle.marking.specs.Earned.{case_number, detail_number};
ghost use Rattle.marking.specs.Views.{earned_of};
ghost use Rattle.marking.specs.declared.fault.Fault.TheVariants.{Fails, Refused};

use checker::axiom::Axiom;
use fields::refusal::Refusal;

/// Why an answer is not accepted.
#[derive(Clone, Copy, PartialEq, Eq, Debug)]
pub enum Fault {
    /// The first axiom that the witness fails.
    Fails(Axiom),
    /// The steps do not finish the run.
    Unfinished,
    /// The witness cannot be read.
    Refused(Refusal),
    /// The steps end inside of a step.
    Unreadable,
}

impl From<Axiom> for Fault {
    // The axiom fails.
    ghost from_gives = { λ a f. f ≡ Fails a };

    fn from(axiom: Axiom) -> Fault {
        Fault::Fails(axiom)
    }
}

impl From<Refusal> for Fault {
    // The witness is refused.
    ghost from_gives = { λ e f. f ≡ Refused e };

    fn from(refusal: Refusal) -> Fault {
        Fault::Refused(refusal)
    }
}

/// The case of a mark: 0 accepted, 1 an axiom fails, 2 unfinished, 3 a witness refused, 4 steps that end inside of a step.
pub fn case_number(mark: Result<(), Fault>) -> u8
    ensures { result ≡ case_number (earned_of mark) }
{
    match mark {
        Ok(()) => 0,
        Err(Fault::Fails(_)) => 1,
        Err(Fault::Unfinished) => 2,
        Err(Fault::Refused(_)) => 3,
        Err(Fault::Unreadable) => 4,
    }
}

/// The number that comes with the case: of the axiom that fails, or of the refusal.
pub fn detail_number(mark: Result<(), Fault>) -> u8
    ensures { result ≡ detail_number (earned_of mark) }
{
    match mark {
        Ok(()) | Err(Fault::Unreadable) => 0,
        Err(Fault::Fails(axiom)) => axiom.into(),
        Err(Fault::Unfinished) => Refusal::RunUnfinished.into(),
        Err(Fault::Refused(refusal)) => refusal.into(),
    }
}
