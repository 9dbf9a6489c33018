//! The admitted weather reports, the latest report of each station, and the lines that print them.
#![tactic(auto)]

mod index;
mod indexing;
mod latest;
mod lines;
mod reader;
mod report;
mod reports;
mod same;
mod sweeping;

pub use index::fingerprint;
pub use latest::Kind;
pub use lines::{push_line, push_weather, push_weather_at};
pub use reader::{read_groups, read_report, receive};
pub use report::{HELD_LIMIT, Read, Received, Report};
pub use reports::Reports;
