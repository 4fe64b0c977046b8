// An entry where it stands.
ghost use Rattle.std.specs.Prelude.{◌<◌, length};

use super::entry::Entry;

pub mod methods;

/// An entry in the buffer of a processor: the buffer, the processor's number, and the entry's position.
#[derive(Clone, Copy)]
pub struct Standing<'a> {
    pub(super) entries: &'a [Entry],
    pub(super) processor: u8,
    pub(super) position: u8,
    ghost within: { position < length entries.now },
}
