use crate::waiting::wait_for;
use desk::Gate;
use std::sync::atomic::{AtomicBool, AtomicU64, Ordering};

/// A gate at which the first items of so many lanes wait for each other. Then the second item of the held lane, if it
/// is lane 1 or 2, waits until the third item of the other is done.
#[derive(Drop)]
pub struct Meeting {
    lanes: u64,
    held: u32,
    came: AtomicU64,
    one_is_done: AtomicU64,
    two_is_done: AtomicU64,
    gave_up: AtomicBool,
}

impl Meeting {
    pub fn new(lanes: u64, held: u32) -> Meeting {
        Meeting {
            lanes,
            held,
            came: AtomicU64::new(0),
            one_is_done: AtomicU64::new(0),
            two_is_done: AtomicU64::new(0),
            gave_up: AtomicBool::new(false),
        }
    }

    /// Whether a lane went on though the others hadn't come so far.
    pub fn gave_up(&self) -> bool {
        self.gave_up.load(Ordering::SeqCst)
    }
}

impl Gate for Meeting {
    fn expects(&self, _items: u64) {}

    fn before(&self, lane: u32, line: u32) {
        if line == 1 {
            self.came.fetch_add(1, Ordering::SeqCst);
            wait_for(&self.came, self.lanes, &self.gave_up);
        }
        if line == 2 && lane == self.held {
            let other = if lane == 1 {
                &self.two_is_done
            } else {
                &self.one_is_done
            };
            wait_for(other, 1, &self.gave_up);
        }
    }

    fn after(&self, lane: u32, line: u32) {
        if line == 3 {
            let own = if lane == 1 {
                &self.one_is_done
            } else {
                &self.two_is_done
            };
            own.store(1, Ordering::SeqCst);
        }
    }
}
