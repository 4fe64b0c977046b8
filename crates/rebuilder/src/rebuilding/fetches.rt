// The fetches of all paths, with the guesses that lead where the paths lead.
ghost use Rattle.std.specs.Prelude.{◌≡◌};
ghost use Rattle.std.specs.List.{range_with_len, flat_map};
ghost use Rattle.completeness.specs.StepsFor.{guess_of};
ghost use Rattle.rebuilder.specs.Progress.{processors_of, runs};
ghost use Rattle.rebuilder.specs.Views.{path_fetches, progress_of, row_fetches};

use super::Rebuilding;
use events::event::Event;
use events::path::PathEvents;
use machine::step::Step;
use rules::rule::Rule;

/// The guess that leads where an event leads; 0 where both ways meet.
fn guess_of(event: Event) -> u8
    ensures { result ≡ guess_of event }
{
    u8::from(event.instruction.branches() && event.next != u16::from(event.place) + 1)
}

impl<'q> Rebuilding<'q> {
    /// Fetches the events of a path.
    fn fetch(&mut self, processor: u8, events: &[Event])
        ensures { progress_of self.new ≡ runs (progress_of self.old) (path_fetches processor events.now) }
    {
        for event in events {
            self.take(Step {
                rule: Rule::Fetch.into(),
                processor,
                position: 0,
                guess: guess_of(*event),
            });
        }
    }

    /// Fetches the paths of the processors.
    pub fn fetch_all(&mut self, rows: &[PathEvents])
        ensures { progress_of self.new ≡ runs (progress_of self.old) (flat_map (row_fetches rows.now) (range_with_len 0 (processors_of (progress_of self.old)))) }
    {
        for (processor, row) in (0..self.processors).zip(rows) {
            self.fetch(processor, row.events.as_slice());
        }
    }
}
