use commands::Gate;
use std::io;
use std::io::Eprint;
use std::sync::atomic::{AtomicU64, Ordering};
use std::time::{Clock, Instant};

// How many milliseconds a command runs before its first line is shown.
const QUIET: u64 = 2_000;

// How many milliseconds a line is shown before the next one, except before the last.
const STANDS: u64 = 500;

// The milliseconds between two moments, plus one, because a mark of 0 means "not yet".
fn mark_of(start: Instant, now: Instant) -> u64 {
    let millis = now.duration_since(start).as_millis();
    if millis < 1 << 62 {
        millis as u64 + 1
    } else {
        1 << 62
    }
}

// Whether a line is due: the quiet time is over, and the previous line was shown long enough or the item is the last.
fn is_due(began: u64, shown: u64, now: u64, is_last: bool) -> bool {
    began != 0
        && now.saturating_sub(began) >= QUIET
        && (is_last || shown == 0 || now.saturating_sub(shown) >= STANDS)
}

// Prints the line, over which the next one is printed. The last line ends with a line feed.
fn tell<E: Eprint>(out: &E, done: u64, all: u64, is_last: bool) -> io::Result<()> {
    eprint!(out;
        "\r{done} of {all} items{}",
        if is_last { "\n" } else { "\r" }
    )
}

/// Shows the progress of a command on standard error if that is a terminal. After two seconds it prints a line with
/// how many items are done, at most twice a second, each over the previous one. A line that can't be printed is lost.
///
/// Threads share it without a lock, so none of its calls waits.
#[derive(Drop)]
pub struct StderrProgress<R: Eprint + Clock + Drop> {
    is_seen: bool,
    rt: R,
    start: Option<Instant>,
    done: AtomicU64,
    all: AtomicU64,
    // The marks of the moment when items were announced and of the last line, 0 before that.
    began: AtomicU64,
    shown: AtomicU64,
}

impl<R: Eprint + Clock + Drop> StderrProgress<R> {
    /// Starts without items. `is_seen` tells whether standard error is a terminal.
    pub fn new(is_seen: bool, rt: R) -> Self {
        let start = Instant::now(&rt).ok();
        StderrProgress {
            is_seen,
            rt,
            start,
            done: AtomicU64::new(0),
            all: AtomicU64::new(0),
            began: AtomicU64::new(0),
            shown: AtomicU64::new(0),
        }
    }

    // The mark of this moment; 0 if the clock fails.
    fn mark(&self) -> u64 {
        match (self.start, Instant::now(&self.rt)) {
            (Some(start), Ok(now)) => mark_of(start, now),
            _ => 0,
        }
    }

    // Shows a line if one is due. If several threads show one at the same time, only one succeeds. The last item
    // always does.
    fn show(&self, done: u64) {
        let now = self.mark();
        let all = self.all.load(Ordering::SeqCst);
        let shown = self.shown.load(Ordering::SeqCst);
        let is_last = done >= all;
        if is_due(self.began.load(Ordering::SeqCst), shown, now, is_last) {
            let taken = self
                .shown
                .compare_exchange(shown, now, Ordering::SeqCst, Ordering::SeqCst);
            if is_last || taken.is_ok() {
                let _ = tell(&self.rt, done, all, is_last);
            }
        }
    }
}

impl<R: Eprint + Clock + Drop> Gate for StderrProgress<R> {
    fn expects(&self, items: u64) {
        self.all.store(items, Ordering::SeqCst);
        self.began.store(self.mark(), Ordering::SeqCst);
    }

    fn before(&self, _lane: u32, _line: u32) {}

    fn after(&self, _lane: u32, _line: u32) {
        if self.is_seen {
            self.show(self.done.fetch_add(1, Ordering::SeqCst).saturating_add(1));
        }
    }
}
