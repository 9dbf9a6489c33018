//! Reads CSV files of weather reports, of which each record is a call that admits a report.
#![tactic(auto)]

mod fields;
mod lines;
mod records;

pub use lines::read_import;
pub use records::{Line, read_record};
