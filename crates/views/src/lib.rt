//! The views of the desk as data: the board, the alerts, a release, the weather of a station, the deferred items of an
//! aircraft.
#![tactic(auto)]

mod alert_objects;
mod boards;
mod details;
mod items;
mod observations;
mod phases;
mod values;
mod view;
mod weather;

pub use view::{View, view_json};
