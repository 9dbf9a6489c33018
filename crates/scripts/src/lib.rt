//! Scripts whose lines are more than calls: those of shifts, whose lines hand over desks too, and those of planned
//! redispatches, whose lines file, check and take up final plans too.
#![tactic(auto)]

mod planned;
mod planned_lines;
mod planned_said;
mod planned_tests;
mod roster_text;
mod routes;
mod senders;
mod shifts;

pub use desk::{
    Board, Desk, Gate, OpenFault, OpenWhy, Raced, RowWhy, leave, make_from, open, race, text_from,
    text_of_import,
};
pub use planned::planned_text;
pub use planned_said::{LineOutcome, LineSaid};
pub use rules::Steps;
pub use shifts::shift_text;
