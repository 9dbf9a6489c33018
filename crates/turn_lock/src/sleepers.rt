use std::sync::Wait;
use std::sync::atomic::{AtomicU64, Ordering};

// The number of words. If there are at most this many passes, no two sleep on the same word.
const WORDS: u64 = 16;

// A sleeping thread compares only the low 32 bits.
const LOW: u64 = 0xffff_ffff;

/// Words on which threads sleep. A thread sleeps on the word of the ticket for whose turn it waits, so that the
/// thread that is woken is the next one.
#[derive(Drop)]
pub(crate) struct Sleepers {
    words: [AtomicU64; 16],
}

impl Sleepers {
    /// Creates the words, none of which was rung.
    pub(crate) fn new() -> Sleepers {
        Sleepers {
            words: [
                AtomicU64::new(0),
                AtomicU64::new(0),
                AtomicU64::new(0),
                AtomicU64::new(0),
                AtomicU64::new(0),
                AtomicU64::new(0),
                AtomicU64::new(0),
                AtomicU64::new(0),
                AtomicU64::new(0),
                AtomicU64::new(0),
                AtomicU64::new(0),
                AtomicU64::new(0),
                AtomicU64::new(0),
                AtomicU64::new(0),
                AtomicU64::new(0),
                AtomicU64::new(0),
            ],
        }
    }

    fn word(&self, ticket: u64) -> &AtomicU64 {
        &self.words[(ticket % WORDS) as usize]
    }

    /// Returns how often the word of a ticket was rung.
    pub(crate) fn rung(&self, ticket: u64) -> u64 {
        self.word(ticket).load(Ordering::SeqCst)
    }

    /// Sleeps until the word of a ticket is rung, unless it was rung since the count `rung`. May return without a
    /// reason.
    pub(crate) fn sleep<R: Wait>(&self, rt: &R, ticket: u64, rung: u64) {
        self.word(ticket).park(rt, (rung & LOW) as u32);
    }

    /// Rings the word of a ticket, and wakes the threads that sleep on it.
    pub(crate) fn ring(&self, ticket: u64) {
        let word = self.word(ticket);
        word.fetch_add(1, Ordering::SeqCst);
        word.wake_all();
    }
}
