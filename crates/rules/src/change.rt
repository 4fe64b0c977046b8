// What a rule does to its processor's buffer, the memory order and the memory.
ghost use Rattle.std.specs.Prelude.{◌≡◌};
ghost use Rattle.rules.specs.Changes.{only, load_change};

use super::entry::Entry;
use memory::cell::{Cell, Mark};

/// The entries that stay, and the place that the counter is set to.
#[derive(Clone, Copy)]
pub struct Cut {
    pub keep: usize,
    pub counter: u16,
}

/// What a step does beyond the buffer.
#[derive(Clone, Copy)]
pub enum Effect {
    /// nothing
    Local,
    /// a load joins the memory order
    Loaded,
    /// a store joins the memory order and writes a cell
    Stored { address: u16, cell: Cell },
}

/// The entry as it is afterwards, what is removed behind it, and the effect.
#[derive(Clone, Copy)]
pub struct Change {
    pub entry: Entry,
    pub cut: Option<Cut>,
    pub effect: Effect,
}

impl Change {
    /// The entry changes and nothing else does.
    pub fn only(entry: Entry) -> Change
        ensures { result ≡ only entry }
    {
        Change {
            entry,
            cut: None,
            effect: Effect::Local,
        }
    }

    /// The load done, with its value and where that came from.
    pub fn loaded(entry: Entry, value: u16, mark: Mark) -> Change
        ensures { result ≡ load_change entry value mark }
    {
        Change {
            entry: Entry {
                done: true,
                value,
                mark,
                ..entry
            },
            cut: None,
            effect: Effect::Loaded,
        }
    }
}

/// What a step asks of the run: to make a change, or to read the memory at an address for a load.
#[derive(Clone, Copy)]
pub enum Action {
    Make(Change),
    Read { address: u16 },
}
