// An event of a path.
use instructions::instruction::Instruction;

/// An instruction that was run, with what it came to; by default an addition of nothing.
#[derive(Clone, Copy, Default)]
pub struct Event {
    /// where the instruction stands
    pub place: u8,
    pub instruction: Instruction,
    /// the place after it
    pub next: u16,
    /// the result, for what writes a register
    pub value: u16,
    /// an access's address, not yet reduced modulo 16
    pub address: u16,
    /// a store's data
    pub datum: u16,
}
