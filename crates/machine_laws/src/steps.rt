// Steps are the rules.
ghost use Rattle.machine.specs.Fires.{StepsAreTheRules};

/// A step is accepted exactly when its rule fires, and leads to exactly that state, removing exactly so many entries.
pub fn steps_are_the_rules() -> u8
    ensures { StepsAreTheRules }
{
    0
}
