// The list as a memory.
ghost use Rattle.std.specs.Prelude.{◌≡◌, ◌%◌, false, [], MatchOption};
ghost use Rattle.bounded.specs.Items.{items};
ghost use Rattle.memory.specs.CellList.{has, find, put, cells_of, Placed};
ghost use Rattle.memory.specs.SixteenCells.{cells_length};

use super::super::cell::Cell;
use super::super::memory::Memory;
use super::{CellList, Row};
use bounded::vector::Bounded;

impl CellList {
    /// No cell written yet.
    pub fn new() -> CellList
        ensures { items result.rows ≡ [] }
    {
        CellList {
            rows: Bounded::new(Row::default()),
        }
    }

    /// The cell at an address, modulo 16; 0 from the start where none was written.
    pub fn find(&self, address: u16) -> Cell
        ensures { result ≡ find (items self.now.rows) (address % 16) }
    {
        match self.place(address % 16) {
            Some(i) => self.rows.as_slice()[i].cell,
            None => Cell::default(),
        }
    }

    /// Writes the cell at an address, modulo 16: its row is replaced in place, or a new one comes behind the others.
    pub fn put(&mut self, address: u16, cell: Cell)
        ensures { items self.new.rows ≡ put (items self.old.rows) (address % 16) cell }
    {
        let address = address % 16;
        let row = Row { address, cell };
        match self.place(address) {
            Some(i) => self.rows.set(i, row),
            None => self.rows.push(row),
        };
    }

    // The index of the first row that has the address.
    fn place(&self, address: u16) -> Option<usize>
        ensures { MatchOption result (has (items self.now.rows) address ≡ false) (λ i. Placed (items self.now.rows) address i) }
    {
        self.rows
            .as_slice()
            .iter()
            .position(|row| row.address == address)
    }
}

impl Memory for CellList {
    ghost cells = { λ l. cells_of (items l.rows) };

    ghost sixteen = { λ m. cells_length (items m.rows) };

    fn read(&mut self, processor: u8, address: u16) -> Cell {
        self.find(address)
    }

    fn write(&mut self, processor: u8, address: u16, cell: Cell) {
        self.put(address, cell);
    }
}
