//! Judges a plan by the nineteen rules, finds the next moment at which a rule of time begins to fail, and returns the
//! fuel that a leg requires.
#![tactic(auto)]

mod circumstances;
mod destination_alternates;
mod due;
mod equipment;
mod evidence;
mod highest_met;
mod judgement;
mod required;
mod required_fuel;
mod sights;
mod takeoff_alternates;
mod time;
mod touches;
mod weather;

pub use due::{due_minutes, next_due, next_due_by};
pub use evidence::Evidence;
pub use judgement::{judge, judge_by};
pub use required::{leg_numbered, required_of};
pub use touches::{is_of_tail, names_station};
pub use weather_window::Steps;
