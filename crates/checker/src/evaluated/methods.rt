// The events of a witness by processor and position.
ghost use Rattle.std.specs.Prelude.{◌≡◌, ℕ, ◌<◌, ◌≤◌, Bool, length};
ghost use Rattle.events.specs.Sources.{path_at, source_at, events};
ghost use Rattle.events.specs.Views.{path_sources};
ghost use Rattle.question.specs.Views.{litmus_of};
ghost use Rattle.witness.specs.Views.{execution_of};
ghost use Rattle.checker.specs.Positions.{Computes, every_position};
ghost use Rattle.checker.specs.Terms.{event};
ghost use Rattle.checker.specs.Tests.{all_below};
ghost use Rattle.checker.specs.Views.{asked, stated};

use super::super::position::Position;
use super::Evaluated;
use events::evaluate::evaluate;
use events::event::Event;
use events::lookup::event_at;
use question::question::Question;
use witness::record::Source;
use witness::witness::Witness;

impl<'q, 'w> Evaluated<'q, 'w> {
    /// The evaluation of a witness.
    pub fn new(question: &'q Question, witness: &'w Witness) -> Self
        ensures question { asked result ≡ litmus_of question.now }
        ensures witness { stated result ≡ execution_of witness.now }
    {
        Evaluated {
            question,
            witness,
            paths: evaluate(question, witness),
        }
    }

    /// How many paths there are.
    pub(crate) fn processors(&self) -> usize
        ensures { result ≡ length (stated self.now).paths }
    {
        self.witness.processors()
    }

    /// How many positions a processor's path has; none past the last path.
    pub(crate) fn positions(&self, processor: usize) -> usize
        ensures { result ≡ length (path_at (stated self.now) processor) }
    {
        self.witness.path(processor).len()
    }

    /// Whether every position of a processor's path passes a test.
    fn path_passes<F: Fn(Position) -> bool>(&self, processor: usize, test: &F) -> bool
        requires { F.IsAlwaysCallable test.now }
        ensures { (t : ℕ → ℕ → Bool) → Computes F.post test.now t → result ≡ all_below (t processor) (length (path_at (stated self.now) processor)) }
    {
        (0..self.positions(processor)).all(|position| test(Position {
            processor,
            position,
        }))
    }

    /// Whether every position of the paths passes a test.
    pub(crate) fn every_position<F: Fn(Position) -> bool>(&self, test: F) -> bool
        requires { F.IsAlwaysCallable test }
        ensures { (t : ℕ → ℕ → Bool) → Computes F.post test t → result ≡ every_position (stated self.now) t }
    {
        (0..self.processors()).all(|processor| self.path_passes(processor, &test))
    }

    /// How many accesses the order has.
    pub(crate) fn accesses(&self) -> usize
        ensures { result ≡ length (stated self.now).order }
    {
        self.witness.order().len()
    }

    /// The events of a processor's path; none past the last path.
    pub fn events(&self, processor: usize) -> &[Event]
        ensures value { result.now ≡ events (asked self.now) (stated self.now) processor }
        ensures few { length result.now ≤ 16 }
    {
        match self.paths.as_slice().get(processor) {
            Some(path) => path.events.as_slice(),
            None => &[],
        }
    }

    /// The event at a position of a processor's path.
    pub(crate) fn event(&self, at: Position) -> Event
        ensures { result ≡ event (asked self.now) (stated self.now) at.processor at.position }
    {
        event_at(self.events(at.processor), at.position)
    }

    /// The source records of the positions of a processor's path; none past the last path.
    pub fn sources(&self, processor: usize) -> &[Source]
        ensures { result.now ≡ path_sources (asked self.now) (stated self.now) processor }
    {
        match self.paths.as_slice().get(processor) {
            Some(path) => path.sources.as_slice(),
            None => &[],
        }
    }

    /// The source record of a position of a processor's path.
    pub(crate) fn source(&self, at: Position) -> Source
        requires { at.position < length (path_at (stated self.now) at.processor) }
        ensures { result ≡ source_at (asked self.now) (stated self.now) at.processor at.position }
    {
        self.sources(at.processor)[at.position]
    }
}
