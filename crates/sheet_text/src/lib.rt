//! Writes the sheet of a plan in words, one line for each comparison.
#![tactic(auto)]

mod amounts;
mod minima;
mod sheets;
mod text;

pub use sheets::{Which, failing_first, heading, moment_line};
pub use text::sheet_text;
