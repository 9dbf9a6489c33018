use crate::waiting::wait_for;
use desk::Gate;
use std::sync::atomic::{AtomicBool, AtomicU64, Ordering};

/// A gate that hears how many items are to come, and then counts the calls of two lanes, which must come in the order
/// before 1, after 1, before 2, after 2 and so on. After its first item each lane waits until the other comes so far,
/// which it can't where the lock is still held.
#[derive(Drop)]
pub struct Counting {
    all: AtomicU64,
    one: AtomicU64,
    two: AtomicU64,
    out_of_order: AtomicBool,
    gave_up: AtomicBool,
}

impl Counting {
    pub fn new() -> Counting {
        Counting {
            all: AtomicU64::new(0),
            one: AtomicU64::new(0),
            two: AtomicU64::new(0),
            out_of_order: AtomicBool::new(false),
            gave_up: AtomicBool::new(false),
        }
    }

    /// Whether it was told, once and before the first call, that so many items are to come.
    pub fn was_told(&self, items: u64) -> bool {
        self.all.load(Ordering::SeqCst) == items && !self.out_of_order.load(Ordering::SeqCst)
    }

    /// Whether so many calls came of each lane, all in order.
    pub fn has_counted(&self, calls: u64) -> bool {
        self.one.load(Ordering::SeqCst) == calls
            && self.two.load(Ordering::SeqCst) == calls
            && !self.out_of_order.load(Ordering::SeqCst)
    }

    /// Whether a lane went on though the other hadn't come so far.
    pub fn gave_up(&self) -> bool {
        self.gave_up.load(Ordering::SeqCst)
    }

    // The call of that number comes to a lane, from 1.
    fn comes(&self, lane: u32, number: u64) {
        let count = if lane == 1 { &self.one } else { &self.two };
        let is_told = self.all.load(Ordering::SeqCst) > 0;
        if count.swap(number, Ordering::SeqCst).saturating_add(1) != number || !is_told {
            self.out_of_order.store(true, Ordering::SeqCst);
        }
    }
}

impl Gate for Counting {
    fn expects(&self, items: u64) {
        if self.all.swap(items, Ordering::SeqCst) > 0 {
            self.out_of_order.store(true, Ordering::SeqCst);
        }
    }

    fn before(&self, lane: u32, line: u32) {
        self.comes(lane, u64::from(line).saturating_mul(2).saturating_sub(1));
    }

    fn after(&self, lane: u32, line: u32) {
        self.comes(lane, u64::from(line).saturating_mul(2));
        if line == 1 {
            let other = if lane == 1 { &self.two } else { &self.one };
            wait_for(other, 2, &self.gave_up);
        }
    }
}
