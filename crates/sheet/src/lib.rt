//! The sheet of a plan: every comparison that the nineteen rules make, with its numbers, in the order of findings.
#![tactic(auto)]

mod circumstances;
mod equipment;
mod fuel;
mod lines;
mod nearest;
mod needs;
mod origins;
mod sheets;
mod sources;
mod time;
mod weather;

pub use lines::{
    AirportUse, Allowance, AlternateNeed, AlternateOrigin, Compared, Departure, Elapsed, FuelSum,
    ItemLimit, Line, OnBoard, Origin, Origins, Range, Repair, Second, Sheet, Source, TablesFault,
    WeatherAt,
};
pub use nearest::Miss;
pub use sheets::sheet_of;
