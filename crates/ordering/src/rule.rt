// What an ordering rule answers.
ghost use Rattle.std.specs.Prelude.{◌≡◌, ℕ, ◌<◌, Bool, true, List};
ghost use Rattle.events.specs.declared.event.Event.{Event};

use super::pair::EventPair;

/// Which pairs of events of a path are kept directly in their order.
pub trait OrderingRule {
    ghost keeps: { Self → List Event → ℕ → ℕ → Bool };

    /// Whether the first event is kept directly before the second.
    fn directly(&self, pair: EventPair<'_>) -> bool
        ensures { result ≡ keeps self.now pair.entry.events.now pair.entry.first pair.entry.second };

    ghost forward: { (r : Self) (es : List Event) (i j : ℕ) → keeps r es i j ≡ true → i < j };
}
