//! Reads calls, replies and their faults from JSON, with the first fault named, and writes them in canonical form.
//! Reads plans from JSON.
#![tactic(auto)]

mod asked;
mod bad_call;
mod fields;
mod keys;
mod line_replies;
mod lines;
mod planned;
mod plans;
mod read_replies;
mod refusals;
mod replies;
mod senders;
mod shifts;
mod written_calls;

pub use bad_call::CallFault;
pub use line_replies::{LineRefusal, line_refusal_text, seated_text};
pub use lines::{read_call, read_line};
pub use planned::{PlannedLine, read_planned};
pub use plans::{PlanText, read_plan};
pub use read_replies::read_reply;
pub use refusals::{refusal_number, why_name};
pub use replies::{bad_text, reply_text};
pub use shifts::{Deal, ShiftLine, read_shift};
pub use written_calls::call_text;
