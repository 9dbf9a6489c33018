//! Stores the desk's rows: the interface `Keeper`, and an implementation in memory.
#![tactic(auto)]

mod account;
mod keeping;
mod memory;
mod order;

pub use account::{AccountEntry, Committed, Loaded, NotLoaded, Outcome};
pub use keeping::{KeepFault, Keeper};
pub use memory::MemoryKeeper;
pub use order::is_rising;
