// The fifth test: the source of each load is the youngest store to its cell that precedes it in the order or in its own path.
ghost use Rattle.std.specs.Prelude.{◌≡◌, length};
ghost use Rattle.events.specs.Sources.{path_at};
ghost use Rattle.search.specs.Search.{nearest};
ghost use Rattle.checker.specs.Tests.{all_below, is_candidate, names_found, is_youngest, load_value_test};
ghost use Rattle.checker.specs.Views.{asked, stated, candidate_before};

use super::evaluated::Evaluated;
use super::position::Position;
use witness::record::Source;

impl<'q, 'w> Evaluated<'q, 'w> {
    /// Whether the access with a number in the order is a store to a position's cell, before the rank in the order or before the position in its own path.
    fn is_candidate(&self, at: Position, rank: usize, number: usize) -> bool
        ensures { result ≡ candidate_before (asked self.now) (stated self.now) rank at.processor at.position number }
    {
        let store = Position::from(self.ordered(number));
        self.stores_to(self.cell(at), store)
            && (number < rank || (store.processor == at.processor && store.position < at.position))
    }

    /// The number in the order of a position's youngest candidate.
    pub fn youngest(&self, at: Position) -> Option<usize>
        ensures { result ≡ nearest (is_candidate (asked self.now) (stated self.now) at.processor at.position) (length (stated self.now).order) }
    {
        let rank = self.rank(at);
        (0..self.accesses()).rfind(|number| self.is_candidate(at, rank, *number))
    }

    /// Whether a source record names the access with a number in the order, or the start where there is none.
    fn names_found(&self, source: Source, found: Option<usize>) -> bool
        ensures { result ≡ names_found (asked self.now) (stated self.now) source found }
    {
        match found {
            None => self.names_start(source),
            Some(number) => Position::from(source) == Position::from(self.ordered(number)),
        }
    }

    /// Whether the source of a position, if it is a load, is its youngest candidate.
    pub fn is_youngest(&self, at: Position) -> bool
        ensures { result ≡ is_youngest (asked self.now) (stated self.now) at.processor at.position }
    {
        !self.event(at).instruction.loads() || self.names_found(self.source(at), self.youngest(at))
    }

    /// Whether the source of every load is its youngest candidate.
    pub(crate) fn load_value_test(&self) -> bool
        ensures { result ≡ load_value_test (asked self.now) (stated self.now) }
    {
        self.every_position(|at| self.is_youngest(at))
    }
}
