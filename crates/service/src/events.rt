use crate::misses::Miss;
use desk_state::Entry;
use desk_time::Minute;

/// An event at a shared desk. Contracts list these values, and code makes none.
pub enum Event {
    /// The clock was asked for a call of the lane, and returned this moment.
    Told { lane: u32, at: Minute },
    /// An entry was added to the history.
    Entered(Entry),
    Missed(Miss),
}
