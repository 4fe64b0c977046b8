// A memory that has only the cells once written, in the order of their first writing.
ghost use Rattle.std.specs.Prelude.{◌≡◌, true};
ghost use Rattle.bounded.specs.Items.{items};
ghost use Rattle.memory.specs.CellList.{once};

use super::cell::Cell;
use bounded::vector::Bounded;

pub mod methods;

/// A cell once written, with its address.
#[derive(Clone, Copy, Default)]
pub struct Row {
    pub address: u16,
    pub cell: Cell,
}

/// The cells once written, each once, in order of first writing; a missing cell is 0 from the start.
#[derive(Drop)]
pub struct CellList {
    rows: Bounded<Row, 16>,
    ghost apart: { once (items rows) ≡ true },
}
