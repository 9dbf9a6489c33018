//! The releases that the desk holds, looked up by id, or by the stations, the aircraft and the minutes that touch
//! them.
#![tactic(auto)]

mod change;
mod entries;
mod keys;
mod moves;
mod releases;
mod touched;

pub use change::OnReleases;
pub use releases::{RELEASE_LIMIT, Releases};
