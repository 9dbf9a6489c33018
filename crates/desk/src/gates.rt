/// Callbacks around each item of a run, of an import, of made calls and of lanes that run at once, and around each
/// connection. The thread that handles the item calls them, without holding the lock.
///
/// `lane` and `line` count from 1. A run with a single lane has lane 1. A connection is line 1 of its lane.
pub trait Gate {
    /// Called once, before the first item, with the number of items of all lanes. Not called for connections.
    fn expects(&self, items: u64);

    /// Called before the item.
    fn before(&self, lane: u32, line: u32);

    /// Called after the item.
    fn after(&self, lane: u32, line: u32);
}
