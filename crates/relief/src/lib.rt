//! Relief of dispatchers' desks: who sits at each desk, how a desk is handed over, the calls that are made for a desk,
//! and the bells of the persons who sit there.
#![tactic(auto)]

mod calls;
mod handover;
mod lines;
mod refusals;
mod roster;
mod seated;

pub use handover::Handover;
pub use lines::RosterLine;
pub use refusals::ReliefFault;
pub use roster::Roster;
pub use seated::Seated;
