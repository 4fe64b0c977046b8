// Starting, stepping and closing a run.
ghost use Rattle.std.specs.Prelude.{◌≡◌, ◌<◌, map, length};
ghost use Rattle.question.specs.Litmus.{code_at};
ghost use Rattle.question.specs.Views.{litmus_of};
ghost use Rattle.rules.specs.Act.{fetch};
ghost use Rattle.machine.specs.State.{started, start_cell, core_at};
ghost use Rattle.machine.specs.Steps.{answer, after, step_outcome, act_outcome, cells_after};
ghost use Rattle.machine.specs.Views.{open_state, run_question};

use super::super::order::after_step;
use super::super::processor::Processors;
use super::super::step::Step;
use super::OpenRun;
use bounded::vector::Bounded;
use fields::refusal::Refusal;
use memory::cell::{Cell, Mark};
use memory::memory::Memory;
use question::question::Question;
use rules::act::{act, fetch};
use rules::change::{Action, Change, Effect};
use rules::entry::Entry;
use rules::rule::Rule;
use witness::record::Access;

/// Writes the cell that a step stores to, if it does.
fn write_cell<M: Memory>(memory: &mut M, processor: u8, effect: Effect)
    ensures { M.Memory.cells memory.new ≡ cells_after effect (M.Memory.cells memory.old) }
{
    if let Effect::Stored { address, cell } = effect {
        memory.write(processor, address, cell);
    }
}

/// Writes the start values to the cells from address 0 on, for processor 0 and with the start's mark.
fn write_start<M: Memory>(memory: &mut M, start: &[u16])
    requires { length start.now ≡ 16 }
    ensures { M.Memory.cells memory.new ≡ map start_cell start.now }
{
    for (address, value) in start.iter().enumerate() {
        memory.write(
            0,
            address as u16,
            Cell {
                value: *value,
                mark: Mark::Start,
            },
        );
    }
}

impl<'q, M: Memory> OpenRun<'q, M> {
    /// Starts a run of a question over a memory, whatever its cells hold.
    pub fn start(question: &'q Question, memory: M) -> OpenRun<'q, M>
        ensures question { run_question result ≡ litmus_of question.now }
        ensures state { open_state M.Memory.cells result ≡ started (litmus_of question.now) }
    {
        let mut memory = memory;
        write_start(&mut memory, question.start());
        let order = Bounded::new(Access::default());
        OpenRun {
            question,
            processors: Processors::new(),
            order,
            memory,
        }
    }

    /// Carries out one step and answers how many entries it removed, or refuses it and changes nothing.
    pub fn step(&mut self, step: Step) -> Result<u8, Refusal>
        ensures value { result ≡ answer (step_outcome (run_question self.old) (open_state M.Memory.cells self.old) step) }
        ensures state { open_state M.Memory.cells self.new ≡ after (open_state M.Memory.cells self.old) (step_outcome (run_question self.old) (open_state M.Memory.cells self.old) step) }
        ensures question { self.new.question ≡ self.old.question }
    {
        let rule = Rule::try_from(step.rule)?;
        if step.processor as usize >= self.question.processors() {
            return Err(Refusal::RuleOrProcessorAbsent);
        }
        match rule {
            Rule::Fetch => {
                let entry = self.fetched_entry(step)?;
                self.processors.fetched(step.processor as usize, entry);
                Ok(0)
            }
            _ => self.act(rule, step),
        }
    }

    /// The entry that a fetch of a processor adds to its buffer.
    fn fetched_entry(&self, step: Step) -> Result<Entry, Refusal>
        requires { step.processor < length (run_question self.now).code }
        ensures { result ≡ fetch (code_at (run_question self.now) step.processor) (core_at (open_state M.Memory.cells self.now) step.processor).counter (core_at (open_state M.Memory.cells self.now) step.processor).entries step.position step.guess }
    {
        let row = self.processors.rows[step.processor as usize];
        fetch(
            self.question,
            step.processor,
            row.counter,
            row.entries.as_slice(),
            step.position,
            step.guess,
        )
    }

    /// A step of rules 2 to 8 of a processor: makes the change that it asks for, and answers how many entries it removed.
    fn act(&mut self, rule: Rule, step: Step) -> Result<u8, Refusal>
        requires { step.processor < length (run_question self.old).code }
        ensures value { result ≡ answer (act_outcome (open_state M.Memory.cells self.old) rule step.processor step.position step.guess) }
        ensures state { open_state M.Memory.cells self.new ≡ after (open_state M.Memory.cells self.old) (act_outcome (open_state M.Memory.cells self.old) rule step.processor step.position step.guess) }
        ensures question { self.new.question ≡ self.old.question }
    {
        let Step {
            processor,
            position,
            guess,
            ..
        } = step;
        let row = self.processors.rows[processor as usize];
        let entries = row.entries.as_slice();
        let change = match act(rule, entries, processor, position, guess)? {
            Action::Make(change) => change,
            Action::Read { address } => {
                let cell = self.memory.read(processor, address);
                Change::loaded(entries[position as usize], cell.value, cell.mark)
            }
        };
        let access = Access {
            processor,
            position,
        };
        write_cell(&mut self.memory, processor, change.effect);
        after_step(&mut self.order, access, change.cut, change.effect);
        Ok(
            self.processors
                .make(processor as usize, position as usize, change),
        )
    }
}
