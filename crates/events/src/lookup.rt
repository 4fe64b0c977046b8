// Events of a path by their position, and by the register that they write.
ghost use Rattle.std.specs.Prelude.{◌≡◌, length};
ghost use Rattle.events.specs.Events.{at, operand, writes_register};

use super::event::Event;
use instructions::register::WritesRegister;
use search::{Matches, nearest_earlier};

impl Matches<WritesRegister> for Event {
    ghost hits = { λ e k. writes_register k.0 e };

    fn matches(&self, key: &WritesRegister) -> bool {
        self.instruction.writes(key.0)
    }
}

/// The event at a position; past the end an addition of nothing.
pub fn event_at(events: &[Event], position: usize) -> Event
    ensures { result ≡ at events.now position }
{
    events.get(position).copied().unwrap_or_default()
}

/// The value of an operand after the events: the result of the last writer of its register, or 0.
pub fn operand(events: &[Event], register: Option<u8>) -> u16
    ensures { result ≡ operand events.now (length events.now) register }
{
    register
        .and_then(|register| nearest_earlier(events, events.len(), &WritesRegister(register)))
        .map_or(0, |writer| event_at(events, writer).value)
}
