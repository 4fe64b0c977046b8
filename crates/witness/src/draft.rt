// A witness while its fields are read.
ghost use Rattle.std.specs.Prelude.{◌≡◌, ◌≤◌, true, length, is_some};
ghost use Rattle.bounded.specs.Items.{items};

use super::record::{Access, Source};
use bounded::vector::Bounded;

/// What is known of the fields so far; a source field came only behind a path field.
#[derive(Clone, Copy)]
pub struct Draft {
    pub(super) paths: Bounded<Bounded<u8, 16>, 4>,
    pub(super) sources: Option<Bounded<Source, 64>>,
    pub(super) order: Option<Bounded<Access, 64>>,
    ghost some: { is_some sources ≡ true → 1 ≤ length (items paths) },
}
