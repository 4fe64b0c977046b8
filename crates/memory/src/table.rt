// A memory that is a table of sixteen cells.
ghost use Rattle.std.specs.Prelude.{◌≡◌, length, replicate};
ghost use Rattle.memory.specs.Cells.{zero_cell};

use super::cell::Cell;
use super::memory::Memory;

/// Sixteen cells, one a place.
#[derive(Drop)]
pub struct Table {
    cells: [Cell; 16],
    ghost full: { length cells ≡ 16 },
}

impl Table {
    /// All cells 0 from the start.
    pub fn new() -> Table
        ensures { result.cells ≡ replicate 16 zero_cell }
    {
        Table {
            cells: [Cell::default(); 16],
        }
    }
}

impl Memory for Table {
    ghost cells = { λ t. t.cells };

    ghost sixteen = { λ t. t.full };

    fn read(&mut self, processor: u8, address: u16) -> Cell {
        self.cells[(address % 16) as usize]
    }

    fn write(&mut self, processor: u8, address: u16, cell: Cell) {
        self.cells[(address % 16) as usize] = cell;
    }
}
