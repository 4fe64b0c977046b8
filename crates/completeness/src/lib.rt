// Every accepted witness is rebuilt: a theorem in the contract of a function that does nothing else.
#![tactic(auto)]

ghost use Rattle.completeness.specs.Complete.{AcceptedWitnessesAreRebuilt};

/// Every witness of which the axioms hold is accepted, and one list of at most 256 steps, all accepted with nothing removed, rebuilds it and runs to it.
pub fn accepted_witnesses_are_rebuilt() -> u8
    ensures { AcceptedWitnessesAreRebuilt }
{
    0
}
