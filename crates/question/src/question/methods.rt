// What a question tells of itself.
ghost use Rattle.std.specs.Prelude.{◌≡◌, ◌≤◌, [], ◌∷◌, length, Ok};
ghost use Rattle.question.specs.Litmus.{code_at};
ghost use Rattle.question.specs.Read.{question_of};
ghost use Rattle.question.specs.Views.{litmus_of};

use super::super::code::Code;
use super::Question;
use bounded::vector::Bounded;
use instructions::instruction::Instruction;

impl Question {
    /// One processor without instructions, all cells 0: the question 50 00 00.
    #[tactic(auto, unfolding(fields::specs::Rows::read_row, fields::specs::Rows::read_within, crate::specs::Codes::code_from))]
    pub fn new() -> Question
        ensures { question_of (80 ∷ 0 ∷ 0 ∷ []) ≡ Ok (litmus_of result) }
    {
        let mut processors = Bounded::new(Code::empty());
        processors.push(Code::empty());
        Question {
            start: [0; 16],
            processors,
        }
    }

    /// How many processors there are: one to four.
    pub fn processors(&self) -> usize
        ensures { result ≡ length (litmus_of self.now).code }
    {
        self.processors.len()
    }

    /// The instructions of a processor; none where there is no such processor.
    pub fn code(&self, processor: usize) -> &[Instruction]
        ensures value { result.now ≡ code_at (litmus_of self.now) processor }
        ensures few { length result.now ≤ 16 }
    {
        self.processors
            .as_slice()
            .get(processor)
            .map_or(&[], |code| code.instructions.as_slice())
    }

    /// The values that the sixteen cells start with.
    pub fn start(&self) -> &[u16]
        ensures { result.now ≡ (litmus_of self.now).start }
    {
        &self.start
    }
}
