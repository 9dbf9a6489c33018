use asks::{Call, Reply};
use desk_time::Minute;

/// The event that an entry of the history records.
#[derive(Debug, Drop)]
pub enum What {
    /// The desk's moment moved forward.
    Tick { to: Minute },
    /// The desk accepted a command. The entry omits the key of the call.
    Asked { call: Call, reply: Reply },
}

/// An entry of the history.
#[derive(Debug, Drop)]
pub struct Entry {
    /// The number of the lane from which the event came.
    pub lane: u32,
    pub what: What,
}
