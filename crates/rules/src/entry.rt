// An entry of a processor's buffer.
ghost use Rattle.std.specs.Prelude.{◌≡◌};
ghost use Rattle.rules.specs.Entries.{fresh};

use instructions::instruction::Instruction;
use memory::cell::Mark;

/// An instruction that was fetched, with what is known of it so far.
#[derive(Clone, Copy)]
pub struct Entry {
    /// where the instruction stands
    pub place: u8,
    pub instruction: Instruction,
    /// the next place: as guessed, and as it is once a branch is done
    pub next: u16,
    pub done: bool,
    /// the result, for what writes a register
    pub value: u16,
    /// an access's address once it is available, not yet reduced modulo 16
    pub address: Option<u16>,
    /// a store's data once they are available
    pub datum: Option<u16>,
    /// where a load's value came from
    pub mark: Mark,
}

impl Entry {
    /// As it is fetched: nothing is known of it but its next place as guessed.
    pub fn fetched(place: u8, instruction: Instruction, next: u16) -> Entry
        ensures { result ≡ fresh place instruction next }
    {
        Entry {
            place,
            instruction,
            next,
            done: false,
            value: 0,
            address: None,
            datum: None,
            mark: Mark::Start,
        }
    }
}
