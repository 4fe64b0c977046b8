// The second test: the order has each access of the paths once, and nothing else.
ghost use Rattle.std.specs.Prelude.{◌≡◌, ◌<◌, ◌≤◌, length, slice_index_or};
ghost use Rattle.events.specs.Sources.{path_at};
ghost use Rattle.ordering.specs.Tests.{some_below};
ghost use Rattle.checker.specs.Terms.{access_at};
ghost use Rattle.checker.specs.Tests.{all_below, same_access, ordered, is_access, is_new, is_ordered, order_test, rank};
ghost use Rattle.checker.specs.Views.{asked, stated};

use super::evaluated::Evaluated;
use super::position::Position;
use search::{Matches, nearest_earlier};
use witness::record::Access;

impl Matches<Position> for Access {
    ghost hits = { λ a k. same_access a (access_at k.processor k.position) };

    fn matches(&self, key: &Position) -> bool {
        Position::from(*self) == *key
    }
}

/// Whether a position is among the first accesses of the order.
fn is_among(order: &[Access], count: usize, at: Position) -> bool
    requires { count ≤ length order.now }
    ensures { result ≡ some_below (λ k. same_access (slice_index_or order.now k (access_at 0 0)) (access_at at.processor at.position)) count }
{
    nearest_earlier(order, count, &at).is_some()
}

impl<'q, 'w> Evaluated<'q, 'w> {
    /// The access with a number in the order.
    pub fn ordered(&self, number: usize) -> Access
        ensures { result ≡ ordered (asked self.now) (stated self.now) number }
    {
        self.witness
            .order()
            .get(number)
            .copied()
            .unwrap_or_default()
    }

    /// Whether a position of a path is an access.
    pub fn is_access(&self, at: Position) -> bool
        ensures { result ≡ is_access (asked self.now) (stated self.now) at.processor at.position }
    {
        at.position < self.positions(at.processor) && self.event(at).instruction.accesses()
    }

    /// Whether the access with a number in the order is one of the paths, and does not stand before.
    fn is_new(&self, number: usize) -> bool
        requires { number < length (stated self.now).order }
        ensures { result ≡ is_new (asked self.now) (stated self.now) number }
    {
        let access = Position::from(self.ordered(number));
        self.is_access(access) && !is_among(self.witness.order(), number, access)
    }

    /// Whether a position, if it is an access, stands in the order.
    pub fn is_ordered(&self, at: Position) -> bool
        ensures { result ≡ is_ordered (asked self.now) (stated self.now) at.processor at.position }
    {
        let order = self.witness.order();
        !self.event(at).instruction.accesses() || is_among(order, order.len(), at)
    }

    /// The number of a position in the order; 0 where it does not stand there.
    pub(crate) fn rank(&self, at: Position) -> usize
        ensures { result ≡ rank (asked self.now) (stated self.now) at.processor at.position }
    {
        let order = self.witness.order();
        nearest_earlier(order, order.len(), &at).unwrap_or(0)
    }

    /// Whether every access of the order is new.
    fn all_new(&self) -> bool
        ensures { result ≡ all_below (is_new (asked self.now) (stated self.now)) (length (stated self.now).order) }
    {
        (0..self.accesses()).all(|number| self.is_new(number))
    }

    /// Whether every access of the paths stands in the order.
    fn all_ordered(&self) -> bool
        ensures { result ≡ all_below (λ p. all_below (is_ordered (asked self.now) (stated self.now) p) (length (path_at (stated self.now) p))) (length (stated self.now).paths) }
    {
        self.every_position(|at| self.is_ordered(at))
    }

    /// Whether the order has each access of the paths once, and nothing else.
    #[tactic(auto, unfolding(crate::specs::Tests::order_test))]
    pub(crate) fn order_test(&self) -> bool
        ensures { result ≡ order_test (asked self.now) (stated self.now) }
    {
        self.all_new() && self.all_ordered()
    }
}
