// Laws of the states that runs reach: each function carries a theorem in its contract.
#![tactic(auto)]

ghost use Rattle.reachable.specs.Laws.{QuestionsAreChecked, StartedKeeps, FiresKeeps, EveryReachableStateKeepsTheInvariant, EntriesGoOnward, DoneStoresStay, OrderNeverCut, OrderGoesOn, FinishedRunsAreDone};

/// Every question keeps what the laws below ask of its litmus test.
pub fn questions_are_checked() -> u8
    ensures { QuestionsAreChecked }
{
    0
}

/// Whatever the steps, refused ones included, the state that a run reaches keeps the invariant: it starts so, and every rule keeps it.
pub fn every_reachable_state_keeps_the_invariant() -> u8
    ensures start { StartedKeeps }
    ensures rules { FiresKeeps }
    ensures runs { EveryReachableStateKeepsTheInvariant }
{
    0
}

/// Every entry that a rule leaves standing goes onward: a done one is unchanged, another keeps its place, instruction, address and data.
pub fn entries_go_onward() -> u8
    ensures { EntriesGoOnward }
{
    0
}

/// No rule removes or changes a done store.
pub fn done_stores_stay() -> u8
    ensures { DoneStoresStay }
{
    0
}

/// An access joins the memory order at its end, and nothing is ever cut off.
pub fn order_is_never_cut() -> u8
    ensures { OrderNeverCut }
{
    0
}

/// What still stands of the memory order stays in its order, and at most one access joins it, at its end.
pub fn order_goes_on() -> u8
    ensures { OrderGoesOn }
{
    0
}

/// In a finished run every processor is at the end of its code, and every entry is done.
pub fn finished_runs_are_done() -> u8
    ensures { FinishedRunsAreDone }
{
    0
}
