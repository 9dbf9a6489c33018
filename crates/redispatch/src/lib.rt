//! Planned redispatch: a final plan for a leg is filed beside an active release, to be taken up in flight, and both
//! plans are judged.
#![tactic(auto)]

mod filing;
mod planned;

pub use filing::FileFault;
pub use planned::{Both, Filed, Planned};
