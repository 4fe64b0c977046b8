// Sequential consistency.
ghost use Rattle.ordering.specs.Tests.{sc_keeps};
ghost use Rattle.ordering.specs.Forward.{sc_forward};

use super::pair::EventPair;
use super::rule::OrderingRule;

/// Sequential consistency: two accesses are kept in their order.
#[derive(Clone, Copy)]
pub struct Sequential;

impl OrderingRule for Sequential {
    ghost keeps = { λ _. sc_keeps };

    ghost forward = { λ r. sc_forward };

    #[tactic(auto, unfolding(crate::specs::Tests::sc_keeps))]
    fn directly(&self, pair: EventPair<'_>) -> bool {
        pair.first < pair.second
            && pair.first_event().instruction.accesses()
            && pair.second_event().instruction.accesses()
    }
}
