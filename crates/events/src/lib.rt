// The events of a path.
#![tactic(auto)]

pub mod evaluate;
pub mod event;
pub mod loads;
pub mod lookup;
pub mod path;
