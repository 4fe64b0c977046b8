// The instructions of one processor.
ghost use Rattle.std.specs.Prelude.{◌≡◌, true, length};
ghost use Rattle.bounded.specs.Items.{items};
ghost use Rattle.question.specs.Sound.{code_sound};

use bounded::vector::Bounded;
use instructions::instruction::Instruction;

pub mod methods;

/// At most sixteen instructions, each with registers below 8 and a branch target within them or at their end.
#[derive(Clone, Copy)]
pub struct Code {
    pub(super) instructions: Bounded<Instruction, 16>,
    ghost sound: { code_sound (items instructions) ≡ true },
}
