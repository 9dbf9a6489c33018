//! The service's interfaces to the outside: a clock, connections, and the door that accepts them. Each comes in
//! memory and over the system.
#![tactic(auto)]

mod answered;
mod crossed;
mod memory_clock;
mod memory_door;
mod memory_link;
mod outside;
mod planned;
mod system_clock;
mod tcp;

pub use crossed::{Crossed, Passing};
pub use memory_clock::MemoryClock;
pub use memory_door::MemoryDoor;
pub use memory_link::MemoryLink;
pub use outside::{Clock, Door, Link};
pub use system_clock::SystemClock;
pub use tcp::{END_BYTES, END_SECONDS, TcpDoor, TcpLink, WAIT_SECONDS};
