// Steps are refused for their first cause.
ghost use Rattle.machine_laws.specs.Causes.{StepsAreRefusedForTheirFirstCause};

/// A step is refused exactly for the first cause that holds, in the order of the numbers.
pub fn steps_are_refused_for_their_first_cause() -> u8
    ensures { StepsAreRefusedForTheirFirstCause }
{
    0
}
