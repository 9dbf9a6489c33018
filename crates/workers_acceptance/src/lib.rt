//! Tests of workers over a door in memory, and of the timeouts of connections.
#![tactic(auto)]

mod greeting;
#[cfg(test)]
mod in_memory;
mod slow_peer;
mod tally;
#[cfg(test)]
mod timing;

pub use greeting::{Greeting, Nothing};
pub use slow_peer::{Hands, SlowPeer};
pub use tally::Tally;
