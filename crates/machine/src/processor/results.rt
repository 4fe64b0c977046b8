// What a processor's buffer gives once its run is closed.
ghost use Rattle.std.specs.Prelude.{◌≡◌, ◌++◌, map, take};
ghost use Rattle.std.specs.List.{flat_map};
ghost use Rattle.bounded.specs.Items.{items};
ghost use Rattle.machine.specs.Results.{all_done, core_finished, all_finished, register_value, registers_of, source_record, core_sources, core_path};
ghost use Rattle.machine.specs.Views.{core_of, row_values};
ghost use Rattle.question.specs.Views.{litmus_of};

use super::super::registers::Registers;
use super::{Processor, Processors};
use bounded::vector::Bounded;
use instructions::instruction::Instruction;
use instructions::register::WritesRegister;
use memory::cell::Mark;
use question::question::Question;
use rules::entry::Entry;
use search::nearest_earlier;
use std::array::from_fn;
use witness::record::Source;

/// Whether every entry is done.
fn all_done(entries: &[Entry]) -> bool
    ensures { result ≡ all_done entries.now }
{
    entries.iter().all(|entry| entry.done)
}

/// A register: the result of its youngest writer, or 0.
fn register_value(entries: &[Entry], register: u8) -> u16
    ensures { result ≡ register_value entries.now register }
{
    nearest_earlier(entries, entries.len(), &WritesRegister(register))
        .and_then(|j| entries.get(j))
        .map_or(0, |entry| entry.value)
}

/// A value with where it came from, as a source record.
fn source_record(mark: Mark, value: u16) -> Source
    ensures { result ≡ source_record mark value }
{
    let (processor, position) = match mark {
        Mark::Start => (255, 255),
        Mark::Store {
            processor,
            position,
        } => (processor, position),
    };
    Source {
        processor,
        position,
        value,
    }
}

impl Processor {
    /// Whether the counter is at the end of the code and every entry is done.
    fn is_finished(&self, code: &[Instruction]) -> bool
        ensures { result ≡ core_finished code.now (core_of self.now) }
    {
        self.counter as usize == code.len() && all_done(self.entries.as_slice())
    }

    /// The eight registers.
    fn registers(&self) -> Registers
        ensures { row_values result ≡ registers_of (core_of self.now) }
    {
        let entries = self.entries.as_slice();
        Registers {
            values: from_fn(|register| register_value(entries, register as u8)),
        }
    }

    /// The places that it ran.
    fn path(&self) -> Bounded<u8, 16>
        ensures { items result ≡ core_path (core_of self.now) }
    {
        let mut path = Bounded::new(0);
        for entry in self.entries.as_slice() {
            path.push(entry.place);
        }
        path
    }

    /// Adds the source records of its loads, oldest first, as many as there is room for.
    fn add_sources(&self, sources: &mut Bounded<Source, 64>)
        ensures { items sources.new ≡ take 64 (items sources.old ++ core_sources (core_of self.now)) }
    {
        for entry in self.entries.as_slice() {
            if entry.instruction.loads() {
                sources.push(source_record(entry.mark, entry.value));
            }
        }
    }
}

impl Processors {
    /// The first processors, as many as there are.
    pub fn first(&self, count: usize) -> &[Processor]
        ensures { result.now ≡ take count self.now.rows }
    {
        &self.rows[..count.min(4)]
    }
}

/// Whether every processor of a question is finished.
pub fn all_finished(question: &Question, rows: &[Processor]) -> bool
    ensures { result ≡ all_finished (litmus_of question.now).code (map core_of rows.now) }
{
    rows.iter()
        .zip(0..question.processors())
        .all(|(row, p)| row.is_finished(question.code(p)))
}

/// The registers of at most four processors.
pub fn all_registers(rows: &[Processor]) -> Bounded<Registers, 4>
    ensures { map row_values (items result) ≡ take 4 (map registers_of (map core_of rows.now)) }
{
    let mut all = Bounded::new(Registers { values: [0; 8] });
    for row in rows {
        all.push(row.registers());
    }
    all
}

/// The places that at most four processors ran.
pub fn all_paths(rows: &[Processor]) -> Bounded<Bounded<u8, 16>, 4>
    ensures { map items (items result) ≡ take 4 (map core_path (map core_of rows.now)) }
{
    let mut all = Bounded::new(Bounded::new(0));
    for row in rows {
        all.push(row.path());
    }
    all
}

/// The source records of the processors' loads, at most 64.
pub fn all_sources(rows: &[Processor]) -> Bounded<Source, 64>
    ensures { items result ≡ take 64 (flat_map core_sources (map core_of rows.now)) }
{
    let mut all = Bounded::new(Source::default());
    for row in rows {
        row.add_sources(&mut all);
    }
    all
}
