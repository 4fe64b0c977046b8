// A run that gives results.
use super::registers::Registers;
use bounded::vector::Bounded;
use memory::memory::Memory;
use witness::witness::Witness;

pub mod methods;

/// A closed run: whether it finished, the registers of its processors, its witness and its memory.
#[derive(Drop)]
pub struct ClosedRun<M: Memory> {
    pub(super) finished: bool,
    pub(super) registers: Bounded<Registers, 4>,
    pub(super) witness: Witness,
    pub(super) memory: M,
}
