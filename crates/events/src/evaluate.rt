// The events of paths, with the load values that a witness states.
ghost use Rattle.std.specs.Prelude.{◌≡◌, ◌+◌, ◌≤◌, map, length, get_or, slice_index_or};
ghost use Rattle.std.specs.List.{range_with_len};
ghost use Rattle.bounded.specs.Items.{items};
ghost use Rattle.events.specs.Events.{next_event, events_upto};
ghost use Rattle.events.specs.Sources.{loads_upto, no_source, events};
ghost use Rattle.events.specs.Views.{all_events, all_sources, path_sources, events_of, sources_of};
ghost use Rattle.question.specs.Views.{litmus_of};
ghost use Rattle.witness.specs.Views.{execution_of};

use super::event::Event;
use super::loads::{instruction_at, is_load, loads_before};
use super::lookup::operand;
use super::path::PathEvents;
use bounded::vector::Bounded;
use instructions::instruction::Instruction;
use question::question::Question;
use witness::record::Source;
use witness::witness::Witness;

/// The event that comes next, at a place of the code; a load takes the stated value.
fn next_event(code: &[Instruction], events: &[Event], place: u8, stated: u16) -> Event
    ensures { result ≡ next_event code.now events.now place stated }
{
    let instruction = instruction_at(code, place);
    let x = operand(events, instruction.first_operand());
    let y = operand(events, instruction.second_operand());
    let value = if instruction.loads() {
        stated
    } else {
        instruction.result(x, y)
    };
    Event {
        place,
        instruction,
        next: instruction.next(place, x),
        value,
        address: instruction.address(x),
        datum: instruction.stored(y),
    }
}

/// A source record; past the last one of zeros.
fn source_at(records: &[Source], number: usize) -> Source
    ensures { result ≡ slice_index_or records.now number no_source }
{
    records.get(number).copied().unwrap_or_default()
}

/// The source record of each position of a path, which counts at loads; `first` is the number of the first.
fn path_sources(
    code: &[Instruction],
    places: &[u8],
    records: &[Source],
    first: usize,
) -> Bounded<Source, 16>
    requires { (length places.now ≤ 16) × (first ≤ 64) }
    ensures { items result ≡ map (λ i. get_or records.now (first + loads_upto code.now places.now i) no_source) (range_with_len 0 (length places.now)) }
{
    let mut sources = Bounded::new(Source::default());
    let mut number = first;
    for place in places {
        sources.push(source_at(records, number));
        if is_load(code, *place) {
            number += 1;
        }
    }
    sources
}

/// The events of a path, with the source record of each position.
fn path_events(code: &[Instruction], places: &[u8], sources: &[Source]) -> Bounded<Event, 16>
    requires { length places.now ≤ 16 }
    ensures { items result ≡ events_upto code.now places.now (λ i. (get_or sources.now i no_source).value) (length places.now) }
{
    let mut events = Bounded::new(Event::default());
    for (i, place) in places.iter().enumerate() {
        let stated = source_at(sources, i).value;
        let event = next_event(code, events.as_slice(), *place, stated);
        events.push(event);
    }
    events
}

/// What the path of a processor comes to.
fn path(question: &Question, witness: &Witness, processor: usize) -> PathEvents
    ensures events { items result.events ≡ events (litmus_of question.now) (execution_of witness.now) processor }
    ensures sources { items result.sources ≡ path_sources (litmus_of question.now) (execution_of witness.now) processor }
{
    let code = question.code(processor);
    let places = witness.path(processor);
    let first = loads_before(question, witness, processor);
    let sources = path_sources(code, places, witness.sources(), first);
    let events = path_events(code, places, sources.as_slice());
    PathEvents { events, sources }
}

/// The events of each path of a witness, with the load values that it states.
pub fn evaluate(question: &Question, witness: &Witness) -> Bounded<PathEvents, 4>
    ensures events { events_of (items result) ≡ all_events (litmus_of question.now) (execution_of witness.now) }
    ensures sources { sources_of (items result) ≡ all_sources (litmus_of question.now) (execution_of witness.now) }
{
    let mut rows = Bounded::new(PathEvents {
        events: Bounded::new(Event::default()),
        sources: Bounded::new(Source::default()),
    });
    for p in 0..witness.processors() {
        rows.push(path(question, witness, p));
    }
    rows
}
