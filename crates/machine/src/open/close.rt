// Closing a run.
ghost use Rattle.std.specs.Prelude.{◌≡◌, ◌≤◌, map, length, take};
ghost use Rattle.std.specs.List.{flat_map};
ghost use Rattle.bounded.specs.Items.{items};
ghost use Rattle.question.specs.Views.{litmus_of};
ghost use Rattle.witness.specs.Views.{execution_of};
ghost use Rattle.machine.specs.Results.{all_finished, closed, core_path, core_sources, registers_of};
ghost use Rattle.machine.specs.Views.{closed_state, core_of, open_state, row_values, run_question};

use super::super::closed::ClosedRun;
use super::super::processor::Processor;
use super::super::processor::results::{all_finished, all_paths, all_registers, all_sources};
use super::OpenRun;
use bounded::vector::Bounded;
use memory::memory::Memory;
use question::question::Question;
use witness::record::Access;
use witness::witness::Witness;

/// The witness of one to four processors and a memory order.
fn witness_of(rows: &[Processor], order: Bounded<Access, 64>) -> Witness
    requires some { 1 ≤ length rows.now }
    requires few { length rows.now ≤ 4 }
    ensures { execution_of result ≡ record { paths = map core_path (map core_of rows.now); sources = flat_map core_sources (map core_of rows.now); order = items order } }
{
    // there is a path, so there is a witness
    Witness::from_parts(all_paths(rows), all_sources(rows), order).unwrap()
}

/// The closed run of one to four processors, a memory order and a memory.
fn gathered<M: Memory>(
    question: &Question,
    rows: &[Processor],
    order: Bounded<Access, 64>,
    memory: M,
) -> ClosedRun<M>
    requires some { 1 ≤ length rows.now }
    requires few { length rows.now ≤ 4 }
    ensures finished { result.finished ≡ all_finished (litmus_of question.now).code (map core_of rows.now) }
    ensures registers { map row_values (items result.registers) ≡ take 4 (map registers_of (map core_of rows.now)) }
    ensures execution { execution_of result.witness ≡ record { paths = map core_path (map core_of rows.now); sources = flat_map core_sources (map core_of rows.now); order = items order } }
    ensures memory { result.memory ≡ memory }
{
    ClosedRun {
        finished: all_finished(question, rows),
        registers: all_registers(rows),
        witness: witness_of(rows, order),
        memory,
    }
}

impl<'q, M: Memory> OpenRun<'q, M> {
    /// Closes the run, finished or not; its memory moves to the closed run.
    pub fn close(self) -> ClosedRun<M>
        ensures { closed_state M.Memory.cells result ≡ closed (run_question self.entry) (open_state M.Memory.cells self.entry) }
    {
        let OpenRun {
            question,
            processors,
            order,
            memory,
        } = self;
        let rows = processors.first(question.processors());
        gathered(question, rows, order, memory)
    }
}
