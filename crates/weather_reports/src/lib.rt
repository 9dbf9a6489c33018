//! Reads weather reports: METAR and SPECI (FMH-1, chapter 12; WMO FM 15) and TAF (WMO FM 51).
#![tactic(auto)]

mod change;
mod forecast;
mod metar;
mod parts;
mod reader;

pub use forecast::{Part, PartKind, Parts, Taf, TafState};
pub use metar::{Metar, metar_in, read_metar};
pub use reader::{read_taf, taf_in};
