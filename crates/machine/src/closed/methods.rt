// The results of a run.
ghost use Rattle.std.specs.Prelude.{◌≡◌};
ghost use Rattle.machine.specs.Results.{register_answer, cell_answer, witness_answer, witness_area};
ghost use Rattle.machine.specs.Views.{closed_state};

use super::ClosedRun;
use fields::refusal::Refusal;
use memory::cell::Cell;
use memory::memory::Memory;

impl<M: Memory> ClosedRun<M> {
    /// Whether every processor's counter is at the end of its code and every entry is done.
    pub fn is_finished(&self) -> bool
        ensures { result ≡ (closed_state M.Memory.cells self.now).finished }
    {
        self.finished
    }

    /// A register of a processor after a finished run.
    pub fn register(&self, processor: u8, register: u8) -> Result<u16, Refusal>
        ensures { result ≡ register_answer (closed_state M.Memory.cells self.now) processor register }
    {
        if !self.finished {
            return Err(Refusal::RunUnfinished);
        }
        let row = self
            .registers
            .get(processor as usize)
            .ok_or(Refusal::Absent)?;
        let value = row.values.get(register as usize).copied();
        value.ok_or(Refusal::Absent)
    }

    /// A cell after a finished run, read as processor 0; nothing changes.
    pub fn cell(&mut self, address: u16) -> Result<Cell, Refusal>
        ensures value { result ≡ cell_answer (closed_state M.Memory.cells self.old) address }
        ensures same { closed_state M.Memory.cells self.new ≡ closed_state M.Memory.cells self.old }
    {
        if !self.finished {
            return Err(Refusal::RunUnfinished);
        }
        if address >= 16 {
            return Err(Refusal::Absent);
        }
        Ok(self.memory.read(0, address))
    }

    /// Writes the witness of a finished run to the front of the area, and answers how many bytes it has; refused, and nothing written, where the area has fewer.
    pub fn witness(&self, area: &mut [u8]) -> Result<usize, Refusal>
        ensures value { result ≡ witness_answer (closed_state M.Memory.cells self.now) area.old }
        ensures area { area.new ≡ witness_area (closed_state M.Memory.cells self.now) area.old }
    {
        if !self.finished {
            return Err(Refusal::RunUnfinished);
        }
        self.witness.write(area)
    }
}
