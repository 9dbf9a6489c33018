//! A lock whose holders take turns in the order of their tickets. Its value represents a list, and each pass knows a
//! prefix of that list.
#![tactic(auto)]

mod laws;
mod listed;
mod lock;
mod pass;
mod plays;
mod rule;
mod sleepers;
mod view;

pub use laws::{elements_are_found, turns_are_single};
pub use listed::Listed;
pub use lock::{OutOfMemoryWith, TurnLock};
pub use pass::{Pass, Turn};
