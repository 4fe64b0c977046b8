// Two events of a path.
ghost use Rattle.std.specs.Prelude.{◌≡◌};
ghost use Rattle.events.specs.Events.{at};

use events::event::Event;
use events::lookup::event_at;

/// The events of a path, and the positions of two of them.
#[derive(Clone, Copy)]
pub struct EventPair<'a> {
    pub events: &'a [Event],
    pub first: usize,
    pub second: usize,
}

impl<'a> EventPair<'a> {
    /// The event at the first position.
    pub(super) fn first_event(self) -> Event
        ensures { result ≡ at self.entry.events.now self.entry.first }
    {
        event_at(self.events, self.first)
    }

    /// The event at the second position.
    pub(super) fn second_event(self) -> Event
        ensures { result ≡ at self.entry.events.now self.entry.second }
    {
        event_at(self.events, self.second)
    }
}
