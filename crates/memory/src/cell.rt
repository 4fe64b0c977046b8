// One cell.

/// Where a value came from: the start, or the store at a processor's position.
#[derive(Clone, Copy, PartialEq, Eq, Default, Debug)]
pub enum Mark {
    #[default]
    Start,
    Store { processor: u8, position: u8 },
}

/// A value and its mark; by default 0 from the start.
#[derive(Clone, Copy, PartialEq, Eq, Default, Debug)]
pub struct Cell {
    pub value: u16,
    pub mark: Mark,
}
