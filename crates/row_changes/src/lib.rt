//! The rows of the desk's state: which rows a state has, which changes an event makes to them, and the state that
//! loaded rows represent.
#![tactic(auto)]

mod again;
mod changes;
mod held;
mod judged;
mod meta;
mod parting;
mod restoring;
mod telling;
mod upgraded;

pub use changes::event_changes;
pub use restoring::content_of;
pub use upgraded::opened_changes;
