//! The alerts of releases that fail a rule, the notices about them, and the bells that receive these.
#![tactic(auto)]

mod alert;
mod bell;
mod memory_bell;
mod notices;
mod ringer;
mod seat;
mod seating;

pub use alert::{Alert, after};
pub use bell::Bell;
pub use memory_bell::MemoryBell;
pub use notices::{Notice, NoticeKind, Notices, notice_of};
pub use ringer::{Ringer, Unhung};
pub use seat::Dropped;
pub use seating::{Namesakes, Seating};
