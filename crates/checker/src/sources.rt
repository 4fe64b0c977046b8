// The third test: the source of each load is the start with its value, or a store to its cell with its data.
ghost use Rattle.std.specs.Prelude.{◌≡◌, length, slice_index};
ghost use Rattle.events.specs.Sources.{path_at};
ghost use Rattle.checker.specs.Terms.{cell, access_at};
ghost use Rattle.checker.specs.Fixed.{stores_to};
ghost use Rattle.checker.specs.Tests.{all_below, names_start, names_store, is_sourced, source_test};
ghost use Rattle.checker.specs.Views.{asked, stated};

use super::evaluated::Evaluated;
use super::position::Position;
use instructions::instruction::effects::cell_number;
use witness::record::Source;

impl<'q, 'w> Evaluated<'q, 'w> {
    /// The value that a cell starts with; 0 past the last cell.
    pub(crate) fn start_value(&self, address: u16) -> u16
        ensures { result ≡ slice_index (asked self.now).start address }
    {
        self.question
            .start()
            .get(address as usize)
            .copied()
            .unwrap_or(0)
    }

    /// The cell that a position's address means.
    pub(crate) fn cell(&self, at: Position) -> u16
        ensures { result ≡ cell (asked self.now) (stated self.now) at.processor at.position }
    {
        cell_number(self.event(at).address)
    }

    /// Whether a position is a store of the paths to a cell.
    pub(crate) fn stores_to(&self, address: u16, at: Position) -> bool
        ensures { result ≡ stores_to (asked self.now) (stated self.now) address (access_at at.processor at.position) }
    {
        at.position < self.positions(at.processor)
            && self.event(at).instruction.stores()
            && self.cell(at) == address
    }

    /// Whether a source record names a store to a cell with its data.
    fn names_store(&self, address: u16, source: Source) -> bool
        ensures { result ≡ names_store (asked self.now) (stated self.now) address source }
    {
        let store = Position::from(source);
        self.stores_to(address, store) && source.value == self.event(store).datum
    }

    /// Whether a source record names the start.
    pub(crate) fn names_start(&self, source: Source) -> bool
        ensures { result ≡ names_start (asked self.now) (stated self.now) source }
    {
        source.store().is_none()
    }

    /// Whether the source of a position, if it is a load, is the start with its value or a store to its cell with its data.
    pub fn is_sourced(&self, at: Position) -> bool
        ensures { result ≡ is_sourced (asked self.now) (stated self.now) at.processor at.position }
    {
        if !self.event(at).instruction.loads() {
            return true;
        }
        let source = self.source(at);
        let address = self.cell(at);
        (self.names_start(source) && source.value == self.start_value(address))
            || self.names_store(address, source)
    }

    /// Whether every load has a source.
    pub(crate) fn source_test(&self) -> bool
        ensures { result ≡ source_test (asked self.now) (stated self.now) }
    {
        self.every_position(|at| self.is_sourced(at))
    }
}
