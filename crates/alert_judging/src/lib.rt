//! The alerts that an event changes. The active releases that it touches are looked up by binary search, and judged
//! by the state after its effect.
#![tactic(auto)]

mod changes;
mod prospect;
mod touching;

pub use changes::notices_of;
pub use prospect::{Prospect, touched_changes};
