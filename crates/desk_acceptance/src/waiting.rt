use std::sync::atomic::{AtomicBool, AtomicU64, Ordering};

// How often a count is looked at before a lane goes on without it.
const MOST_TURNS: u64 = 20_000_000_000;

/// Waits until so many came, and else says that it gave up.
pub fn wait_for(count: &AtomicU64, wanted: u64, gave_up: &AtomicBool) {
    for _ in 0..MOST_TURNS {
        if count.load(Ordering::SeqCst) >= wanted {
            return;
        }
    }
    gave_up.store(true, Ordering::SeqCst);
}
