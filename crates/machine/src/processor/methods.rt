// What a step does to the processors.
ghost use Rattle.std.specs.Prelude.{◌≡◌, ◌<◌, map, length, get_or, replicate, slice_index_or, slice_set};
ghost use Rattle.bounded.specs.Items.{items};
ghost use Rattle.machine.specs.State.{empty_core};
ghost use Rattle.machine.specs.Steps.{core_changed, core_fetched, removed};
ghost use Rattle.machine.specs.Views.{core_of};

use super::{Processor, Processors};
use bounded::vector::Bounded;
use instructions::instruction::Instruction;
use rules::change::Change;
use rules::entry::Entry;

impl Processor {
    /// At place 0 with an empty buffer.
    pub fn new() -> Processor
        ensures { core_of result ≡ empty_core }
    {
        Processor {
            counter: 0,
            entries: Bounded::new(Entry::fetched(0, Instruction::default(), 0)),
        }
    }

    /// Adds a fetched entry, where there is room, and goes on where it leads.
    pub fn fetched(&mut self, entry: Entry)
        ensures { core_of self.new ≡ core_fetched (core_of self.old) entry }
    {
        self.entries.push(entry);
        self.counter = entry.next;
    }

    /// Makes a change of the entry at a position, and answers how many entries it removed.
    pub fn make(&mut self, position: usize, change: Change) -> u8
        ensures value { result ≡ removed change.cut (length (items self.old.entries)) }
        ensures core { core_of self.new ≡ core_changed (core_of self.old) position change }
    {
        self.entries.set(position, change.entry);
        match change.cut {
            None => 0,
            Some(cut) => {
                let before = self.entries.len();
                self.entries.truncate(cut.keep);
                self.counter = cut.counter;
                (before - self.entries.len()) as u8
            }
        }
    }
}

impl Processors {
    /// All at place 0 with empty buffers.
    pub fn new() -> Processors
        ensures { map core_of result.rows ≡ replicate 4 empty_core }
    {
        Processors {
            rows: [Processor::new(); 4],
        }
    }

    /// Adds a fetched entry to a processor's buffer.
    pub fn fetched(&mut self, processor: usize, entry: Entry)
        ensures { map core_of self.new.rows ≡ slice_set (map core_of self.old.rows) processor (core_fetched (slice_index_or (map core_of self.old.rows) processor empty_core) entry) }
    {
        if processor < 4 {
            let mut row = self.rows[processor];
            row.fetched(entry);
            self.rows[processor] = row;
        }
    }

    /// Makes a change of the entry at a position of a processor, and answers how many entries it removed.
    pub fn make(&mut self, processor: usize, position: usize, change: Change) -> u8
        requires { processor < 4 }
        ensures value { result ≡ removed change.cut (length (get_or (map core_of self.old.rows) processor empty_core).entries) }
        ensures cores { map core_of self.new.rows ≡ slice_set (map core_of self.old.rows) processor (core_changed (slice_index_or (map core_of self.old.rows) processor empty_core) position change) }
    {
        let mut row = self.rows[processor];
        let removed = row.make(position, change);
        self.rows[processor] = row;
        removed
    }
}
