//! The dispatch release desk. It opens over stored rows, then answers calls, scripts, imports, and lanes that run at
//! once.
#![tactic(auto)]

mod answering;
mod coming;
mod gates;
mod imported;
mod lanes;
mod made;
mod opening;
mod racing;
mod round;
mod run;
mod running;
mod settling;
mod turns;

pub use alerts::{Bell, Dropped};
pub use answering::{Answered, answer, make_call, make_tick};
pub use board::{Board, RowWhy};
pub use gates::Gate;
pub use imported::text_of_import;
pub use lanes::Lane;
pub use made::make_from;
pub use opening::{OpenFault, OpenWhy, leave, open};
pub use run::{answer_item, said_text, text_from};
pub use running::{Finished, Raced, race, run_lanes};
pub use settling::{Desk, Settled};
