//! The board: the state of the desk, of which each step is prepared first and then installed. Its invariant ties the
//! state to its history, and the alerts to the rules that fail.
#![tactic(auto)]

mod prepared;
mod restoring;
mod state;
mod steps;

pub use prepared::{Installed, Prepared};
pub use records::{Checked, RowWhy, RowsFault, check_rows};
pub use state::{Board, Restored};
