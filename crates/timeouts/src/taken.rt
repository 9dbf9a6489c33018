use std::sync::atomic::{AtomicU64, Ordering};

/// How many workers have a connection.
#[derive(Drop)]
pub struct Taken {
    count: AtomicU64,
    workers: u64,
}

impl Taken {
    /// Starts with so many workers, none of which has a connection.
    pub fn new(workers: u64) -> Taken {
        Taken {
            count: AtomicU64::new(0),
            workers,
        }
    }

    /// Counts a worker that takes a connection.
    pub fn begin(&self) {
        self.count.fetch_add(1, Ordering::SeqCst);
    }

    /// Counts a worker whose connection has ended.
    pub fn end(&self) {
        self.count.fetch_sub(1, Ordering::SeqCst);
    }

    /// Returns how many workers have a connection.
    pub fn count(&self) -> u64 {
        self.count.load(Ordering::SeqCst)
    }

    /// Returns whether every worker has a connection, so that none waits for the next one.
    pub fn are_all(&self) -> bool {
        self.count() >= self.workers
    }
}
