ghost use Rattle.std.specs.Prelude.{◌≡◌, ◌<◌, ◌≤◌, ◌+◌, ◌^◌, ◌++◌, ◌∷◌, ◌||◌, [], drop, length, nat_lt};
ghost use Rattle.service.specs.Events as spec;
ghost use Rattle.service.specs.Events.{entered, keeps};
ghost use Rattle.service.specs.declared.events.Event.TheVariants.{Missed, Told};

use crate::events::Event;
use crate::misses::{Miss, MissOf};
use desk::Board;
use desk_io::Record;
use desk_time::Minute;
use std::marker::Model;

// The clock's answer for a call of a lane.
#[derive(Drop)]
struct Telling {
    lane: u32,
    at: Minute,
}

impl desk_io::Event<Event> for Telling {
    ghost told = { λ t. Told t.lane t.at ∷ [] };
}

// The entries that a board has beyond the first `held`.
#[derive(Drop)]
struct Entering<'a> {
    board: &'a Board,
    held: usize,
}

impl<'a> desk_io::Event<Event> for Entering<'a> {
    ghost told = { λ e. entered (drop e.held e.board.now.state.entries) };
}

#[derive(Drop)]
struct Missing {
    miss: Miss,
}

impl desk_io::Event<Event> for Missing {
    ghost told = { λ m. Missed m.miss ∷ [] };
}

// Whether rows can be kept after a miss of this object.
fn keeps_after(kept: bool, source: MissOf) -> bool
    ensures { result ≡ spec.keeps_after kept source }
{
    match source {
        MissOf::Keeper => false,
        MissOf::Clock => kept,
    }
}

// Whether rows can be kept after so many more entries.
fn kept_since(kept: bool, more: usize) -> bool
    ensures { result ≡ (kept || nat_lt 0 more) }
{
    kept || more > 0
}

/// The events at a shared desk so far, in order, as a list that only contracts see. Code counts them.
#[derive(Drop)]
pub(crate) struct Events {
    record: Record<Event>,
    count: u64,
    kept: bool,
}

impl Model for Events {
    ghost use Rattle.std.specs.Prelude.{◌≡◌, List, length};
    ghost use Rattle.service.specs.Events.{keeps};
    ghost use Rattle.service.specs.declared.events.Event.{Event as AnEvent};

    ghost Value = { List AnEvent };

    ghost view = { λ e. e.record.list };

    ghost invariant = { λ e. (e.count ≡ length e.record.list) × (e.kept ≡ keeps e.record.list) };
}

impl Events {
    /// No events.
    pub(crate) fn new() -> Events
        ensures { result ≡ [] }
    {
        Events {
            record: Record::new(),
            count: 0,
            kept: true,
        }
    }

    /// Returns the number of events.
    pub(crate) fn len(&self) -> u64
        ensures { result ≡ length self.now }
    {
        self.count
    }

    /// Returns whether rows could be kept when they were to change last.
    pub(crate) fn keeps(&self) -> bool
        ensures { result ≡ keeps self.now }
    {
        self.kept
    }

    /// Adds the clock's answer for a call of a lane.
    pub(crate) fn told(&mut self, lane: u32, at: Minute)
        requires { length self.old < 2 ^ 63 }
        ensures { self.new ≡ self.old ++ Told lane at ∷ [] }
    {
        self.record = self.record.with(&Telling { lane, at });
        self.count += 1;
    }

    /// Adds the entries that the board has beyond the first `held`. There are at most 400,000.
    pub(crate) fn entered(&mut self, board: &Board, held: usize)
        requires { length self.old < 2 ^ 63 }
        ensures list { self.new ≡ self.old ++ entered (drop held board.now.state.entries) }
        ensures few { length self.new ≤ length self.old + 400_000 }
    {
        let _ = board.now();
        let more = board.entries().saturating_sub(held);
        self.record = self.record.with(&Entering { board, held });
        self.count += more as u64;
        self.kept = kept_since(self.kept, more);
    }

    /// Adds a miss.
    pub(crate) fn missed(&mut self, miss: Miss)
        requires { length self.old < 2 ^ 63 }
        ensures { self.new ≡ self.old ++ Missed miss ∷ [] }
    {
        self.record = self.record.with(&Missing { miss });
        self.count += 1;
        self.kept = keeps_after(self.kept, miss.source);
    }
}
