//! HTTP connections, independent of who answers their requests: when a connection ends, and how a door's connections
//! are served in rounds.
#![tactic(auto)]

mod accepting;
mod answers;
mod doors;
mod rounds;
mod serving;

pub use accepting::{Finished, serve_all};
pub use answers::Unanswered;
pub use doors::ServeEnd;
pub use rounds::{Serving, Visited};
pub use serving::{Served, end_without, write_answer};
