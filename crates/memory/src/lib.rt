// Memories of sixteen cells.
#![tactic(auto)]

pub mod cell;
pub mod cell_list;
pub mod memory;
pub mod table;
