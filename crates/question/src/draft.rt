// A question while its fields are read.
use super::code::Code;
use bounded::vector::Bounded;

/// What is known of the fields so far: the start values once a cell field has come, and the processors.
#[derive(Clone, Copy)]
pub struct Draft {
    pub(super) start: Option<[u16; 16]>,
    pub(super) processors: Bounded<Code, 4>,
}
