// What a memory promises: the one-cell rule.
ghost use Rattle.std.specs.Prelude.{◌≡◌, List, length};
ghost use Rattle.memory.specs.declared.cell.Cell.{Cell};
ghost use Rattle.memory.specs.Cells.{cell_at, written};

use super::cell::Cell;

/// Sixteen cells. Addresses count modulo 16 and processors modulo 4; neither call refuses.
pub trait Memory {
    ghost cells: { Self → List Cell };

    /// The cell at an address, for a processor; the sixteen cells stay the same.
    fn read(&mut self, processor: u8, address: u16) -> Cell
        ensures value { result ≡ cell_at (cells self.old) address }
        ensures same { cells self.new ≡ cells self.old };

    /// Gives the cell at an address a value and a mark, for a processor; no other cell changes.
    fn write(&mut self, processor: u8, address: u16, cell: Cell)
        ensures { cells self.new ≡ written (cells self.old) address cell };

    ghost sixteen: { (m : Self) → length (cells m) ≡ 16 };
}
