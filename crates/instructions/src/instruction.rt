// Instructions.
ghost use Rattle.std.specs.Prelude.{◌≡◌};
ghost use Rattle.instructions.specs.Effects.{nothing};

pub mod effects;
pub mod kinds;

/// The two types of access to a cell.
#[derive(Clone, Copy, PartialEq, Eq, Debug)]
pub enum AccessType {
    Load,
    Store,
}

/// An instruction. Registers are 0 to 7; an operand that is `None` counts as 0 and reads no register.
#[derive(Clone, Copy, PartialEq, Eq, Debug)]
pub enum Instruction {
    /// d = s1 + s2 + k
    Add {
        d: u8,
        s1: Option<u8>,
        s2: Option<u8>,
        k: u16,
    },
    /// d = s1 - s2 + k
    Subtract {
        d: u8,
        s1: Option<u8>,
        s2: Option<u8>,
        k: u16,
    },
    /// d = cell at s1 + k
    Load {
        d: u8,
        s1: Option<u8>,
        k: u16,
    },
    /// cell at s1 + k = s2 + j
    Store {
        s1: Option<u8>,
        s2: Option<u8>,
        k: u16,
        j: u16,
    },
    /// to place j if s1 equals k, else to the next
    Branch {
        s1: Option<u8>,
        k: u16,
        j: u16,
    },
    /// accesses of type `before` are done before later ones of type `after`
    Fence {
        before: AccessType,
        after: AccessType,
    },
}

impl Default for Instruction {
    // An addition of nothing.
    ghost is_default = { λ i. i ≡ nothing };

    fn default() -> Instruction {
        Instruction::Add {
            d: 0,
            s1: None,
            s2: None,
            k: 0,
        }
    }
}
