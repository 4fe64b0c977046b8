// The fourth test: accesses that an ordering rule keeps, through any events between, stand so in the order.
ghost use Rattle.std.specs.Prelude.{◌≡◌, ◌≤◌, false, ◌&&◌, ◌||◌, length, slice_index_or};
ghost use Rattle.bounded.specs.Items.{items};
ghost use Rattle.events.specs.Sources.{path_at, events};
ghost use Rattle.ordering.specs.Tests.{some_below};
ghost use Rattle.checker.specs.Tests.{all_below, reached, is_kept_in_order, inst_order_test};
ghost use Rattle.checker.specs.Views.{asked, stated, kept_by_row};

use super::evaluated::Evaluated;
use super::position::Position;
use bounded::vector::Bounded;
use events::event::Event;
use ordering::pair::EventPair;
use ordering::rule::OrderingRule;

/// Whether a row of answers says yes at a position; past its end it does not.
fn is_marked(reached: &[bool], position: usize) -> bool
    ensures { result ≡ slice_index_or reached.now position false }
{
    reached.get(position).copied().unwrap_or(false)
}

/// Whether the second event is kept directly after one of those before it that are reached.
fn is_after_reached<R: OrderingRule>(rule: &R, reached: &[bool], pair: EventPair<'_>) -> bool
    ensures { result ≡ some_below (λ k. slice_index_or reached.now k false && R.OrderingRule.keeps rule.now pair.entry.events.now k pair.entry.second) pair.entry.second }
{
    (0..pair.second).any(|first| is_marked(reached, first)
        && rule.directly(EventPair { first, ..pair }))
}

/// Whether the second event is kept after the first, directly or after one of those before it that are reached.
fn is_reached<R: OrderingRule>(rule: &R, reached: &[bool], pair: EventPair<'_>) -> bool
    ensures { result ≡ (R.OrderingRule.keeps rule.now pair.entry.events.now pair.entry.first pair.entry.second || some_below (λ k. slice_index_or reached.now k false && R.OrderingRule.keeps rule.now pair.entry.events.now k pair.entry.second) pair.entry.second) }
{
    rule.directly(pair) || is_after_reached(rule, reached, pair)
}

/// Which events a rule keeps after the first, through any events between.
fn reached_from<R: OrderingRule>(rule: &R, events: &[Event], first: usize) -> Bounded<bool, 16>
    requires { length events.now ≤ 16 }
    ensures { items result ≡ reached (R.OrderingRule.keeps rule.now events.now) first (length events.now) }
{
    let mut reached = Bounded::new(false);
    for second in 0..events.len() {
        let pair = EventPair {
            events,
            first,
            second,
        };
        let hit = is_reached(rule, reached.as_slice(), pair);
        reached.push(hit);
    }
    reached
}

impl<'q, 'w> Evaluated<'q, 'w> {
    /// Which positions of its path a rule keeps after a position, through any events between.
    pub fn reached<R: OrderingRule>(&self, rule: &R, from: Position) -> Bounded<bool, 16>
        ensures { items result ≡ reached (R.OrderingRule.keeps rule.now (events (asked self.now) (stated self.now) from.processor)) from.position (length (path_at (stated self.now) from.processor)) }
    {
        reached_from(rule, self.events(from.processor), from.position)
    }

    /// Whether two positions of a path, if they are accesses of which the second is reached, stand so in the order.
    pub fn is_kept_in_order(&self, reached: &[bool], from: Position, second: usize) -> bool
        ensures { result ≡ kept_by_row (asked self.now) (stated self.now) reached.now from.processor from.position second }
    {
        let to = Position {
            position: second,
            ..from
        };
        let kept = self.event(from).instruction.accesses()
            && self.event(to).instruction.accesses()
            && is_marked(reached, second);
        !kept || self.rank(from) < self.rank(to)
    }

    /// Whether a position and all accesses that are reached from it stand so in the order.
    fn row_is_kept(&self, reached: &[bool], from: Position) -> bool
        ensures { result ≡ all_below (kept_by_row (asked self.now) (stated self.now) reached.now from.processor from.position) (length reached.now) }
    {
        (0..reached.len()).all(|second| self.is_kept_in_order(reached, from, second))
    }

    /// Whether a position and all accesses that a rule keeps after it stand so in the order.
    fn position_is_kept<R: OrderingRule>(&self, rule: &R, from: Position) -> bool
        ensures { result ≡ all_below (is_kept_in_order (asked self.now) (stated self.now) (R.OrderingRule.keeps rule.now) from.processor from.position) (length (path_at (stated self.now) from.processor)) }
    {
        let reached = self.reached(rule, from);
        self.row_is_kept(reached.as_slice(), from)
    }

    /// Whether all accesses that a rule keeps stand so in the order.
    pub(crate) fn inst_order_test<R: OrderingRule>(&self, rule: &R) -> bool
        ensures { result ≡ inst_order_test (asked self.now) (stated self.now) (R.OrderingRule.keeps rule.now) }
    {
        self.every_position(|from| self.position_is_kept(rule, from))
    }
}
