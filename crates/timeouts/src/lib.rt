//! A network whose connections end when their peer is silent or slow.
#![tactic(auto)]

mod limits;
mod network;
mod streams;
mod taken;

pub use network::{TimedListener, TimedNet};
pub use streams::{IDLE_SECONDS, REQUEST_SECONDS, RESPONSE_SECONDS, TimedStream};
pub use taken::Taken;
