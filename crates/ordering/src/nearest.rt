// The nearest earlier store to a cell.
ghost use Rattle.std.specs.Prelude.{◌≡◌};
ghost use Rattle.ordering.specs.Tests.{stores_to, nearest_store, found_depends, none_after};

use super::pair::EventPair;
use events::event::Event;
use instructions::instruction::effects::cell_number;
use search::{Matches, nearest_earlier};

/// Stores to the cell of an address.
#[derive(Clone, Copy)]
struct StoresTo(u16);

impl Matches<StoresTo> for Event {
    ghost hits = { λ e k. stores_to k.0 e };

    fn matches(&self, key: &StoresTo) -> bool {
        self.instruction.stores() && cell_number(self.address) == cell_number(key.0)
    }
}

impl<'a> EventPair<'a> {
    /// The nearest earlier store to the cell of the second event.
    fn nearest_store(self) -> Option<usize>
        ensures { result ≡ nearest_store self.entry.events.now self.entry.second }
    {
        nearest_earlier(
            self.events,
            self.second,
            &StoresTo(self.second_event().address),
        )
    }

    /// Whether the nearest earlier store to the cell of the second event depends on the first.
    pub(super) fn nearest_store_depends(self) -> bool
        ensures { result ≡ found_depends self.entry.events.now (nearest_store self.entry.events.now self.entry.second) self.entry.first }
    {
        self.nearest_store()
            .is_some_and(|second| EventPair { second, ..self }.depends())
    }

    /// Whether no store to the cell of the second event stands between the two.
    pub(super) fn no_store_between(self) -> bool
        ensures { result ≡ none_after self.entry.events.now (nearest_store self.entry.events.now self.entry.second) self.entry.first }
    {
        self.nearest_store().is_none_or(|store| store <= self.first)
    }
}
