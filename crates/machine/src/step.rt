// A step.
ghost use Rattle.std.specs.Prelude.{◌≡◌};
ghost use Rattle.machine.specs.Bytes.{step_bytes};

/// A step: the rule's number, the processor, the position of the entry, and the guess of a fetch.
#[derive(Clone, Copy, PartialEq, Eq, Debug)]
pub struct Step {
    pub rule: u8,
    pub processor: u8,
    pub position: u8,
    pub guess: u8,
}

impl From<[u8; 4]> for Step {
    // The step that four bytes state: rule, processor, position, guess.
    ghost from_gives = { λ b s. step_bytes s ≡ b };

    fn from([rule, processor, position, guess]: [u8; 4]) -> Step {
        Step {
            rule,
            processor,
            position,
            guess,
        }
    }
}

impl From<Step> for [u8; 4] {
    // The four bytes of a step.
    ghost from_gives = { λ s b. b ≡ step_bytes s };

    fn from(step: Step) -> [u8; 4] {
        [step.rule, step.processor, step.position, step.guess]
    }
}
