// The empty code.
ghost use Rattle.std.specs.Prelude.{◌≡◌, []};
ghost use Rattle.question.specs.Views.{instructions_of};

use super::Code;
use bounded::vector::Bounded;
use instructions::instruction::Instruction;

impl Code {
    /// No instructions.
    #[tactic(auto, unfolding(crate::specs::Sound::code_sound))]
    pub fn empty() -> Code
        ensures { instructions_of result ≡ [] }
    {
        let instructions = Bounded::new(Instruction::default());
        Code { instructions }
    }
}
