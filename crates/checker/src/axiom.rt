// The axioms by their numbers.
ghost use Rattle.std.specs.Prelude.{◌≡◌};
ghost use Rattle.checker.specs.Views.{axiom_number, verdict_number};

/// The axioms, in the order of their tests.
#[derive(Clone, Copy, PartialEq, Eq, PartialOrd, Ord, Debug)]
pub enum Axiom {
    Path = 1,
    Order = 2,
    Source = 3,
    InstOrder = 4,
    LoadValue = 5,
}

impl From<Axiom> for u8 {
    // The number of the axiom.
    ghost from_gives = { λ a n. n ≡ axiom_number a };

    fn from(axiom: Axiom) -> u8 {
        axiom as u8
    }
}

/// 0 for an accepted witness, else the number of the first axiom that fails.
pub fn verdict_number(verdict: Result<(), Axiom>) -> u8
    ensures { result ≡ verdict_number verdict }
{
    match verdict {
        Ok(()) => 0,
        Err(axiom) => axiom.into(),
    }
}
