// A checked question.
ghost use Rattle.std.specs.Prelude.{◌≡◌, ◌≤◌, length};
ghost use Rattle.bounded.specs.Items.{items};

use super::code::Code;
use bounded::vector::Bounded;

pub mod methods;

/// One to four processors' code, and the values that the sixteen cells start with.
#[derive(Clone, Copy)]
pub struct Question {
    pub(super) start: [u16; 16],
    pub(super) processors: Bounded<Code, 4>,
    ghost sixteen: { length start ≡ 16 },
    ghost some: { 1 ≤ length (items processors) },
}
