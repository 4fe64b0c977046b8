// Soundness: every finished run's witness satisfies the axioms of GAM. Each function carries a theorem in its contract.
#![tactic(auto)]

ghost use Rattle.soundness.specs.Laws.{FinishedRunsSatisfyTheAxioms, FinishedRunsOfQuestionsSatisfyTheAxioms, BranchToItselfNeverFinishes};
ghost use Rattle.soundness.specs.Worked.{StoreThenLoadSatisfiesTheAxioms};

/// Whatever the steps, refused ones included, and over every memory: the witness of a finished run satisfies the axioms of GAM, gets verdict 0, and fixes the registers and the cells that the run answers.
pub fn finished_runs_satisfy_the_axioms() -> u8
    ensures checked { FinishedRunsSatisfyTheAxioms }
    ensures questions { FinishedRunsOfQuestionsSatisfyTheAxioms }
{
    0
}

/// A branch to itself that is always taken never finishes.
pub fn branch_to_itself_never_finishes() -> u8
    ensures { BranchToItselfNeverFinishes }
{
    0
}

/// Some run finishes: a store and a load that takes its data.
pub fn store_then_load_satisfies_the_axioms() -> u8
    ensures { StoreThenLoadSatisfiesTheAxioms }
{
    0
}
