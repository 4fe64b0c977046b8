// The processors of a run.
ghost use Rattle.std.specs.Prelude.{◌≡◌, length};

use bounded::vector::Bounded;
use rules::entry::Entry;

pub mod methods;
pub mod results;

/// A processor: the place that it fetches from next, and its buffer, oldest entry first.
#[derive(Clone, Copy)]
pub struct Processor {
    pub(super) counter: u16,
    pub(super) entries: Bounded<Entry, 16>,
}

/// Four processors, of which a run uses as many as its question has.
#[derive(Clone, Copy)]
pub struct Processors {
    pub(super) rows: [Processor; 4],
    ghost four: { length rows ≡ 4 },
}
