// What the rules look for among the entries, as keys of the one search.
ghost use Rattle.std.specs.Prelude.{◌≡◌, Bool};
ghost use Rattle.rules.specs.Ready.{writes_register};
ghost use Rattle.rules.specs.Tests.{open_for_fence, open_fence_to_load, open_to_cell, holds_store, to_cell, same_cell};

use super::entry::Entry;
use instructions::instruction::effects::cell_number;
use instructions::instruction::{AccessType, Instruction};
use instructions::register::WritesRegister;
use search::Matches;

/// Accesses that a fence puts first, not done.
#[derive(Clone, Copy)]
pub struct OpenForFence(pub Instruction);

/// Fences that loads come after, not done.
#[derive(Clone, Copy)]
pub struct OpenFenceToLoad;

/// Accesses to the cell of an address, not done.
#[derive(Clone, Copy)]
pub struct OpenToCell(pub u16);

/// What holds a store to an address back.
#[derive(Clone, Copy)]
pub struct HoldsStore(pub u16);

/// Accesses to the cell of an address.
#[derive(Clone, Copy)]
pub struct ToCell(pub u16);

/// Whether an available address means the same cell.
fn same_cell(address: u16, other: Option<u16>) -> bool
    ensures { result ≡ same_cell address other }
{
    other.is_some_and(|other| cell_number(address) == cell_number(other))
}

impl Matches<WritesRegister> for Entry {
    ghost hits = { λ e k. writes_register k.0 e };

    fn matches(&self, key: &WritesRegister) -> bool {
        self.instruction.writes(key.0)
    }
}

impl Matches<OpenForFence> for Entry {
    ghost hits = { λ e k. open_for_fence k.0 e };

    fn matches(&self, key: &OpenForFence) -> bool {
        let loads = key.0.fences_from(AccessType::Load) && self.instruction.loads();
        let stores = key.0.fences_from(AccessType::Store) && self.instruction.stores();
        (loads || stores) && !self.done
    }
}

impl Matches<OpenFenceToLoad> for Entry {
    ghost hits = { λ e _. open_fence_to_load e };

    fn matches(&self, key: &OpenFenceToLoad) -> bool {
        self.instruction.fences_to(AccessType::Load) && !self.done
    }
}

impl Matches<OpenToCell> for Entry {
    ghost hits = { λ e k. open_to_cell k.0 e };

    fn matches(&self, key: &OpenToCell) -> bool {
        self.instruction.accesses() && !self.done && same_cell(key.0, self.address)
    }
}

impl Matches<HoldsStore> for Entry {
    ghost hits = { λ e k. holds_store k.0 e };

    fn matches(&self, key: &HoldsStore) -> bool {
        let branch = self.instruction.branches() && !self.done;
        let lost = self.instruction.accesses() && self.address.is_none();
        let same = self.instruction.accesses() && !self.done && same_cell(key.0, self.address);
        let fence = self.instruction.fences_to(AccessType::Store) && !self.done;
        branch || lost || same || fence
    }
}

impl Matches<ToCell> for Entry {
    ghost hits = { λ e k. to_cell k.0 e };

    fn matches(&self, key: &ToCell) -> bool {
        self.instruction.accesses() && same_cell(key.0, self.address)
    }
}
