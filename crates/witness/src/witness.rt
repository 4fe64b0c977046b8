// A witness.
ghost use Rattle.std.specs.Prelude.{◌≤◌, length};
ghost use Rattle.bounded.specs.Items.{items};

use super::record::{Access, Source};
use bounded::vector::Bounded;

pub mod methods;

/// One to four paths of at most sixteen places, at most 64 sources of loads, and at most 64 accesses in memory order.
#[derive(Clone, Copy)]
pub struct Witness {
    pub(super) paths: Bounded<Bounded<u8, 16>, 4>,
    pub(super) sources: Bounded<Source, 64>,
    pub(super) order: Bounded<Access, 64>,
    ghost some: { 1 ≤ length (items paths) },
}
