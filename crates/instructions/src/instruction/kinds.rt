// What an instruction does.
ghost use Rattle.std.specs.Prelude.{◌≡◌};
ghost use Rattle.instructions.specs.Kinds.{loads, stores, access, computes, branches, fences, of_type, fence_from, fence_to, first_operand, second_operand, writes};

use super::{AccessType, Instruction};

impl Instruction {
    /// Whether it reads a cell.
    pub fn loads(self) -> bool
        ensures { result ≡ loads self }
    {
        matches!(self, Instruction::Load { .. })
    }

    /// Whether it writes a cell.
    pub fn stores(self) -> bool
        ensures { result ≡ stores self }
    {
        matches!(self, Instruction::Store { .. })
    }

    /// Whether it reads or writes a cell.
    pub fn accesses(self) -> bool
        ensures { result ≡ access self }
    {
        self.loads() || self.stores()
    }

    /// Whether it computes a register from registers.
    pub fn computes(self) -> bool
        ensures { result ≡ computes self }
    {
        matches!(self, Instruction::Add { .. } | Instruction::Subtract { .. })
    }

    /// Whether it chooses the next place.
    pub fn branches(self) -> bool
        ensures { result ≡ branches self }
    {
        matches!(self, Instruction::Branch { .. })
    }

    /// Whether it is an access of the type.
    pub fn is_of_type(self, access: AccessType) -> bool
        ensures { result ≡ of_type access self }
    {
        match access {
            AccessType::Load => self.loads(),
            AccessType::Store => self.stores(),
        }
    }

    /// Whether it is a fence that earlier accesses of the type come before.
    pub fn fences_from(self, access: AccessType) -> bool
        ensures { result ≡ fence_from access self }
    {
        matches!(self, Instruction::Fence { before, .. } if before == access)
    }

    /// Whether it is a fence.
    pub fn fences(self) -> bool
        ensures { result ≡ fences self }
    {
        matches!(self, Instruction::Fence { .. })
    }

    /// Whether it is a fence that later accesses of the type come after.
    pub fn fences_to(self, access: AccessType) -> bool
        ensures { result ≡ fence_to access self }
    {
        matches!(self, Instruction::Fence { after, .. } if after == access)
    }

    /// The register that it reads first, for an access the one of its address.
    pub fn first_operand(self) -> Option<u8>
        ensures { result ≡ first_operand self }
    {
        match self {
            Instruction::Add { s1, .. }
            | Instruction::Subtract { s1, .. }
            | Instruction::Load { s1, .. }
            | Instruction::Store { s1, .. }
            | Instruction::Branch { s1, .. } => s1,
            Instruction::Fence { .. } => None,
        }
    }

    /// The register that it reads second, for a store the one of its data.
    pub fn second_operand(self) -> Option<u8>
        ensures { result ≡ second_operand self }
    {
        match self {
            Instruction::Add { s2, .. }
            | Instruction::Subtract { s2, .. }
            | Instruction::Store { s2, .. } => s2,
            _ => None,
        }
    }

    /// Whether it writes the register.
    pub fn writes(self, register: u8) -> bool
        ensures { result ≡ writes self register }
    {
        matches!(
            self,
            Instruction::Add { d, .. } | Instruction::Subtract { d, .. } | Instruction::Load { d, .. }
                if d == register
        )
    }
}
