//! Workers that serve the connections of a door. Each worker takes the next connection as soon as its last one has
//! ended, until the door fails.
#![tactic(auto)]

mod beside;
mod doorway;
mod passages;
mod passes;
mod starting;
mod staying;
mod turns;
mod working;

pub use beside::{Beside, Closing};
pub use doorway::Doorway;
pub use passages::Passage;
pub use staying::stay;
