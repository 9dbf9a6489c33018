use commands::{Gate, Program};
use desk_io::OutOfMemory;
use std::alloc::Global;
use std::sync::atomic::{AtomicBool, AtomicU64, Ordering};

/// A gate that counts its calls: how many items were announced, how many have passed, and whether they came in order.
/// They did if each item of lane 1 came once and in order, and any announcement came once and before all items.
#[derive(Drop)]
pub struct GateThatCounts {
    is_told: AtomicBool,
    has_begun: AtomicBool,
    all: AtomicU64,
    passed: AtomicU64,
    // The calls for items of lane 1, two for each.
    calls: AtomicU64,
    strayed: AtomicBool,
}

impl GateThatCounts {
    /// Starts with no call made.
    pub fn new() -> Self {
        GateThatCounts {
            is_told: AtomicBool::new(false),
            has_begun: AtomicBool::new(false),
            all: AtomicU64::new(0),
            passed: AtomicU64::new(0),
            calls: AtomicU64::new(0),
            strayed: AtomicBool::new(false),
        }
    }

    fn stray(&self) {
        self.strayed.store(true, Ordering::SeqCst);
    }

    // Counts a call for an item. For lane 1, `number` counts these calls from 1.
    fn comes(&self, lane: u32, number: u64) {
        self.has_begun.store(true, Ordering::SeqCst);
        if lane == 1 && self.calls.swap(number, Ordering::SeqCst).saturating_add(1) != number {
            self.stray();
        }
    }

    /// The counts as JSON, `[ITEMS, PASSED, ORDER]`. ITEMS is null if no items were announced. The result is null if
    /// there was no call.
    pub fn text(&self, alloc: Global) -> Result<String, OutOfMemory> {
        let is_told = self.is_told.load(Ordering::SeqCst);
        let all = self.all.load(Ordering::SeqCst);
        let passed = self.passed.load(Ordering::SeqCst);
        let order = !self.strayed.load(Ordering::SeqCst);
        if is_told {
            return Ok(format!(in alloc; "[{all},{passed},{order}]")?);
        }
        if self.has_begun.load(Ordering::SeqCst) {
            return Ok(format!(in alloc; "[null,{passed},{order}]")?);
        }
        Ok(String::from_str(alloc, "null")?)
    }
}

impl Program for GateThatCounts {
    fn name(&self) -> &[u8] {
        b"a case"
    }

    fn busy(&self) -> u64 {
        0
    }
}

impl Gate for GateThatCounts {
    fn expects(&self, items: u64) {
        if self.is_told.swap(true, Ordering::SeqCst) || self.has_begun.load(Ordering::SeqCst) {
            self.stray();
        }
        self.all.store(items, Ordering::SeqCst);
    }

    fn before(&self, lane: u32, line: u32) {
        self.comes(lane, u64::from(line).saturating_mul(2).saturating_sub(1));
    }

    fn after(&self, lane: u32, line: u32) {
        self.comes(lane, u64::from(line).saturating_mul(2));
        self.passed.fetch_add(1, Ordering::SeqCst);
    }
}
