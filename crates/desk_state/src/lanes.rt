use asks::{BadCall, HeldCall, Reply};
use desk_time::Minute;

/// The next item of a lane. A lane is one source of calls, such as a script or a connection.
#[derive(Debug, Drop)]
pub enum Item {
    /// A call and the moment at which it is made.
    Call { at: Minute, call: HeldCall },
    /// A text that isn't a call, with its first fault.
    Bad(BadCall),
}

/// The desk's answer to an item of a lane.
#[derive(Debug, Drop)]
pub enum Said {
    /// The reply to a call.
    Reply(Reply),
    /// The first fault of a text that isn't a call.
    Bad(BadCall),
}

/// The outcome of an item of a lane.
#[derive(Debug, Drop)]
pub struct Outcome {
    /// The number of entries in the history before the desk handled the item.
    pub position: u64,
    pub said: Said,
}
