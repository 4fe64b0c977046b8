// Which event an event of a path depends on.
ghost use Rattle.std.specs.Prelude.{◌≡◌};
ghost use Rattle.ordering.specs.Tests.{feeds, depends, depends_for_address, some_below};

use super::pair::EventPair;
use instructions::register::WritesRegister;
use search::nearest_earlier;

impl<'a> EventPair<'a> {
    /// Whether the operand of the second event comes from the first, its nearest earlier writer.
    fn feeds(self, operand: Option<u8>) -> bool
        ensures { result ≡ feeds self.entry.events.now operand self.entry.first self.entry.second }
    {
        let Some(register) = operand else {
            return false;
        };
        nearest_earlier(self.events, self.second, &WritesRegister(register)) == Some(self.first)
    }

    /// Whether the second event depends on the first.
    pub(super) fn depends(self) -> bool
        ensures { result ≡ depends self.entry.events.now self.entry.first self.entry.second }
    {
        let instruction = self.second_event().instruction;
        self.feeds(instruction.first_operand()) || self.feeds(instruction.second_operand())
    }

    /// Whether the second event, an access, depends on the first for its address.
    fn depends_for_address(self) -> bool
        ensures { result ≡ depends_for_address self.entry.events.now self.entry.first self.entry.second }
    {
        let instruction = self.second_event().instruction;
        instruction.accesses() && self.feeds(instruction.first_operand())
    }

    /// Whether an access before the second event depends on the first for its address.
    pub(super) fn some_address_depends(self) -> bool
        ensures { result ≡ some_below (depends_for_address self.entry.events.now self.entry.first) self.entry.second }
    {
        (0..self.second).any(|second| EventPair { second, ..self }.depends_for_address())
    }
}
