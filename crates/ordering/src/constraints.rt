// The seven ordering constraints of GAM, each for two events of a path.
ghost use Rattle.std.specs.Prelude.{◌≡◌, ◌||◌, ◌&&◌};
ghost use Rattle.instructions.specs.Kinds.{of_type, fence_from, fence_to};
ghost use Rattle.instructions.specs.declared.instruction.AccessType.TheVariants as access_type;
ghost use Rattle.ordering.specs.Tests.{same_cell, sa_mem_st, sa_st_ld, sa_ld_ld, reg_raw, br_st, addr_st, fence_ord};

use super::pair::EventPair;
use events::event::Event;
use instructions::instruction::AccessType;
use instructions::instruction::effects::cell_number;

/// Whether the second is a fence that accesses of the first's type come before.
fn access_then_fence(one: Event, other: Event) -> bool
    ensures { result ≡ ((of_type access_type.Load one.instruction && fence_from access_type.Load other.instruction) || (of_type access_type.Store one.instruction && fence_from access_type.Store other.instruction)) }
{
    let load = one.instruction.loads() && other.instruction.fences_from(AccessType::Load);
    let store = one.instruction.stores() && other.instruction.fences_from(AccessType::Store);
    load || store
}

/// Whether the first is a fence that accesses of the second's type come after.
fn fence_then_access(one: Event, other: Event) -> bool
    ensures { result ≡ ((fence_to access_type.Load one.instruction && of_type access_type.Load other.instruction) || (fence_to access_type.Store one.instruction && of_type access_type.Store other.instruction)) }
{
    let load = one.instruction.fences_to(AccessType::Load) && other.instruction.loads();
    let store = one.instruction.fences_to(AccessType::Store) && other.instruction.stores();
    load || store
}

impl<'a> EventPair<'a> {
    /// Whether both have one cell.
    fn same_cell(self) -> bool
        ensures { result ≡ same_cell self.entry.events.now self.entry.first self.entry.second }
    {
        cell_number(self.first_event().address) == cell_number(self.second_event().address)
    }

    /// SAMemSt: an access, then a store to the same cell.
    #[tactic(auto, unfolding(crate::specs::Tests::sa_mem_st))]
    pub fn sa_mem_st(self) -> bool
        ensures { result ≡ sa_mem_st self.entry.events.now self.entry.first self.entry.second }
    {
        self.first < self.second
            && self.first_event().instruction.accesses()
            && self.second_event().instruction.stores()
            && self.same_cell()
    }

    /// SAStLd: what the nearest earlier store to a load's cell depends on, then the load.
    #[tactic(auto, unfolding(crate::specs::Tests::sa_st_ld))]
    pub fn sa_st_ld(self) -> bool
        ensures { result ≡ sa_st_ld self.entry.events.now self.entry.first self.entry.second }
    {
        self.second_event().instruction.loads() && self.nearest_store_depends()
    }

    /// SALdLd: two loads of one cell, with no store to it between them.
    #[tactic(auto, unfolding(crate::specs::Tests::sa_ld_ld))]
    pub fn sa_ld_ld(self) -> bool
        ensures { result ≡ sa_ld_ld self.entry.events.now self.entry.first self.entry.second }
    {
        self.first < self.second
            && self.first_event().instruction.loads()
            && self.second_event().instruction.loads()
            && self.same_cell()
            && self.no_store_between()
    }

    /// RegRAW: what an event depends on, then the event.
    #[tactic(auto, unfolding(crate::specs::Tests::reg_raw))]
    pub fn reg_raw(self) -> bool
        ensures { result ≡ reg_raw self.entry.events.now self.entry.first self.entry.second }
    {
        self.depends()
    }

    /// BrSt: a branch, then a store.
    #[tactic(auto, unfolding(crate::specs::Tests::br_st))]
    pub fn br_st(self) -> bool
        ensures { result ≡ br_st self.entry.events.now self.entry.first self.entry.second }
    {
        let other = self.second_event().instruction;
        self.first < self.second && self.first_event().instruction.branches() && other.stores()
    }

    /// AddrSt: what an access before a store depends on for its address, then the store.
    #[tactic(auto, unfolding(crate::specs::Tests::addr_st))]
    pub fn addr_st(self) -> bool
        ensures { result ≡ addr_st self.entry.events.now self.entry.first self.entry.second }
    {
        self.second_event().instruction.stores() && self.some_address_depends()
    }

    /// FenceOrd: an access of type X then a FenceXY, or a FenceXY then an access of type Y.
    #[tactic(auto, unfolding(crate::specs::Tests::fence_ord))]
    pub fn fence_ord(self) -> bool
        ensures { result ≡ fence_ord self.entry.events.now self.entry.first self.entry.second }
    {
        let one = self.first_event();
        let other = self.second_event();
        self.first < self.second && (access_then_fence(one, other) || fence_then_access(one, other))
    }
}
