// Verdicts and the axioms.
ghost use Rattle.checker.specs.Verdict.{VerdictsAreTheAxioms, GAMVerdictsAreTheAxioms, SCVerdictsAreTheAxioms};

/// Under every ordering rule that keeps only earlier before later, the verdict is 0 exactly when all axioms hold, and the number of an axiom exactly when it is the first to fail.
pub fn verdicts_are_the_axioms() -> u8
    ensures { VerdictsAreTheAxioms }
{
    0
}

/// The same under GAM, with the seven constraints as published.
pub fn gam_verdicts_are_the_axioms() -> u8
    ensures { GAMVerdictsAreTheAxioms }
{
    0
}

/// The same under sequential consistency.
pub fn sc_verdicts_are_the_axioms() -> u8
    ensures { SCVerdictsAreTheAxioms }
{
    0
}
