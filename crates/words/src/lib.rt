//! The program's arguments, and which of them form a command.
#![tactic(auto)]

mod asked;
mod reading;
mod task;

pub use reading::command;
pub use task::{DeskTask, Task};
