//! The program's commands, and `desk_main`, which runs the command in the arguments and writes its result.
#![tactic(auto)]

mod commands;
mod explained;
mod fault;
mod inputs;
mod rung;
mod shifts;
mod sources;
mod threads;
mod top;
mod weather;
mod working;
mod works;

pub use scripts::Gate;
pub use service::Program;
pub use threads::WORKERS;
pub use top::{Ending, desk_main};
