//! Inoperative equipment whose repair is deferred under a minimum equipment list: the open items, when they are due,
//! and what they take from a flight (14 CFR 121.628).
#![tactic(auto)]

mod by_tail;
mod held;
mod items;
mod limits;

pub use held::{DEFERRAL_LIMIT, Deferrals};
pub use items::{Deferral, due};
pub use limits::{Limits, limits_of, limits_on, open_on};
