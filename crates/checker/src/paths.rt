// The first test: each path runs from place 0 to the end of its code.
ghost use Rattle.std.specs.Prelude.{◌≡◌, length};
ghost use Rattle.question.specs.Litmus.{code_at};
ghost use Rattle.events.specs.Sources.{events};
ghost use Rattle.checker.specs.Axioms.{leads_to};
ghost use Rattle.checker.specs.Tests.{all_below, place_fits, runs_through, path_test};
ghost use Rattle.checker.specs.Views.{asked, stated};

use super::evaluated::Evaluated;
use events::event::Event;
use events::loads::loads_before;
use events::lookup::event_at;
use instructions::instruction::Instruction;

/// Where the first events of a path lead: to place 0 before the first.
pub fn leads_to(events: &[Event], count: usize) -> u16
    ensures { result ≡ leads_to events.now count }
{
    if count == 0 {
        0
    } else {
        event_at(events, count - 1).next
    }
}

/// Whether an event stands at a place of the code, where those before it lead.
pub fn place_fits(code: &[Instruction], events: &[Event], position: usize) -> bool
    ensures { result ≡ place_fits code.now events.now position }
{
    let place = event_at(events, position).place;
    place as u16 == leads_to(events, position) && (place as usize) < code.len()
}

/// Whether every event stands at a place of the code, where those before it lead.
fn places_fit(code: &[Instruction], events: &[Event]) -> bool
    ensures { result ≡ all_below (place_fits code.now events.now) (length events.now) }
{
    (0..events.len()).all(|position| place_fits(code, events, position))
}

/// Whether the events run from place 0 to the end of the code.
fn runs_through(code: &[Instruction], events: &[Event]) -> bool
    ensures { result ≡ runs_through code.now events.now }
{
    places_fit(code, events) && leads_to(events, events.len()) as usize == code.len()
}

impl<'q, 'w> Evaluated<'q, 'w> {
    /// Whether a processor's path runs from place 0 to the end of its code.
    fn path_runs_through(&self, processor: usize) -> bool
        ensures { result ≡ runs_through (code_at (asked self.now) processor) (events (asked self.now) (stated self.now) processor) }
    {
        runs_through(self.question.code(processor), self.events(processor))
    }

    /// Whether every path of the question's processors runs to the end.
    fn all_run_through(&self) -> bool
        ensures { result ≡ all_below (λ p. runs_through (code_at (asked self.now) p) (events (asked self.now) (stated self.now) p)) (length (asked self.now).code) }
    {
        (0..self.question.processors()).all(|processor| self.path_runs_through(processor))
    }

    /// Whether there is a path for each processor, each runs through, and there is a source record for each load.
    #[tactic(auto, unfolding(crate::specs::Tests::path_test))]
    pub(crate) fn path_test(&self) -> bool
        ensures { result ≡ path_test (asked self.now) (stated self.now) }
    {
        let processors = self.question.processors();
        self.processors() == processors
            && self.all_run_through()
            && self.witness.sources().len() == loads_before(self.question, self.witness, processors)
    }
}
