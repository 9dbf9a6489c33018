//! The state of the desk: what it holds, how each call is decided, and which histories are legal.
#![tactic(auto)]

mod alerted;
mod change;
mod content;
mod counters;
mod effect;
mod entry;
mod event;
mod held_alerts;
mod history;
mod holdings;
mod installing;
mod lanes;
mod past;
mod room;

pub use alerted::Alerted;
pub use change::AlertChange;
pub use content::{Content, ENTRY_LIMIT, EVENT_LIMIT, KEPT_LIMIT};
pub use counters::Counters;
pub use effect::{Decision, Effect, OnAlerts, OnDeferrals, Sweep};
pub use entry::{Entry, What};
pub use event::Event;
pub use history::History;
pub use holdings::Holdings;
pub use lanes::{Item, Outcome, Said};
