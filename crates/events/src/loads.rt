// How many loads paths have.
ghost use Rattle.std.specs.Prelude.{◌≡◌, ◌≤◌, length};
ghost use Rattle.instructions.specs.Kinds.{loads};
ghost use Rattle.question.specs.Litmus.{instruction_at};
ghost use Rattle.events.specs.Sources.{loads_upto, loads_before};
ghost use Rattle.question.specs.Views.{litmus_of};
ghost use Rattle.witness.specs.Views.{execution_of};

use instructions::instruction::Instruction;
use question::question::Question;
use witness::witness::Witness;

/// The instruction at a place of the code; past its end an addition of nothing.
pub(super) fn instruction_at(code: &[Instruction], place: u8) -> Instruction
    ensures { result ≡ instruction_at code.now place }
{
    code.get(place as usize).copied().unwrap_or_default()
}

/// Whether the instruction at a place of the code is a load.
pub(super) fn is_load(code: &[Instruction], place: u8) -> bool
    ensures { result ≡ loads (instruction_at code.now place) }
{
    instruction_at(code, place).loads()
}

/// How many places of a path are loads.
fn path_loads(code: &[Instruction], places: &[u8]) -> usize
    ensures { result ≡ loads_upto code.now places.now (length places.now) }
{
    places.iter().filter(|place| is_load(code, **place)).count()
}

/// How many loads the paths of the first processors have.
pub fn loads_before(question: &Question, witness: &Witness, processors: usize) -> usize
    ensures count { result ≡ loads_before (litmus_of question.now) (execution_of witness.now) processors }
    ensures few { result ≤ 64 }
{
    (0..processors.min(witness.processors()))
        .map(|p| path_loads(question.code(p), witness.path(p)))
        .sum()
}
