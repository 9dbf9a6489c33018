//! What the seats of passes know. These types exist only in contracts.
use std::collections::LinkedList;

/// The stage of a pass.
pub enum Stage {
    /// It has no ticket and no turn.
    Idle,
    /// It has drawn this ticket, and waits.
    Waiting(u64),
    /// It has a turn by this ticket. The slot is in its place, and is empty.
    Entered(u64),
    /// It has a turn by this ticket, and holds the slot.
    Holding(u64),
    /// Another pass has taken it in.
    Spent,
}

/// What two passes had seen, and their numbers, when one took in the other.
pub struct Joint<E> {
    pub seen: LinkedList<E>,
    pub numbers: LinkedList<u64>,
    pub other_seen: LinkedList<E>,
    pub other_numbers: LinkedList<u64>,
}

/// What the seat of a pass knows.
pub struct View<E> {
    pub number: u64,
    /// The numbers of the passes that it has taken in.
    pub others: LinkedList<u64>,
    /// How often it was split.
    pub splits: u64,
    pub seen: LinkedList<E>,
    /// What its last join left, until it draws a ticket.
    pub joint: Option<Joint<E>>,
    pub stage: Stage,
}
