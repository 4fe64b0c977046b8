// What an instruction computes from the values of its operands.
ghost use Rattle.std.specs.Prelude.{◌≡◌};
ghost use Rattle.instructions.specs.Effects.{arithmetic_result, address_sum, cell_number, data_sum, next_place, guessed_place};

use super::Instruction;

/// The cell that an address means: the address modulo 16.
pub fn cell_number(address: u16) -> u16
    ensures { result ≡ cell_number address }
{
    address % 16
}

impl Instruction {
    /// The result of an addition or a subtraction, modulo 65,536.
    pub fn result(self, x: u16, y: u16) -> u16
        ensures { result ≡ arithmetic_result self x y }
    {
        match self {
            Instruction::Add { k, .. } => x.wrapping_add(y).wrapping_add(k),
            Instruction::Subtract { k, .. } => x.wrapping_sub(y).wrapping_add(k),
            _ => 0,
        }
    }

    /// The address of an access, before it is reduced modulo 16.
    pub fn address(self, x: u16) -> u16
        ensures { result ≡ address_sum self x }
    {
        match self {
            Instruction::Load { k, .. } | Instruction::Store { k, .. } => x.wrapping_add(k),
            _ => 0,
        }
    }

    /// The data of a store.
    pub fn stored(self, x: u16) -> u16
        ensures { result ≡ data_sum self x }
    {
        match self {
            Instruction::Store { j, .. } => x.wrapping_add(j),
            _ => 0,
        }
    }

    /// The place after the one where it stands; a branch goes to its target if its operand is `k`.
    pub fn next(self, place: u8, x: u16) -> u16
        ensures { result ≡ next_place self place x }
    {
        match self {
            Instruction::Branch { k, j, .. } if x == k => j,
            _ => place as u16 + 1,
        }
    }

    /// The place that a guess leads to.
    pub fn guessed(self, place: u8, taken: bool) -> u16
        ensures { result ≡ guessed_place self place taken }
    {
        match self {
            Instruction::Branch { j, .. } if taken => j,
            _ => place as u16 + 1,
        }
    }
}
