ghost use Rattle.std.specs.Prelude.{◌≡◌, ◌-◌, ◌^◌, false, true, length, map, min, sum_by, IsTrue, IfOk};
ghost use Rattle.std.specs.Bool.{OnTrue};
ghost use Rattle.std.specs.List.{AllByRecursion, list_all};
ghost use Rattle.desk.specs.Keeping.{kept_at};
ghost use Rattle.desk.specs.Merge.{AreMerged, AreMergedInPart, IsFresh, is_done};
ghost use Rattle.desk.specs.Positions.{AreOneHistory};
ghost use Rattle.desk.specs.Race.{IsRace, IsRaceInPart, race_text};
ghost use Rattle.desk.specs.Round.{AreTaken, items_in};
ghost use Rattle.desk.specs.Seen.{desk_seen, DeskGoesOn};

use crate::gates::Gate;
use crate::lanes::Lane;
use crate::racing::{lanes_of, race_text};
use crate::round::{Beginning, Round};
use crate::settling::Desk;
use alerts::Bell;
use desk_io::{OutOfMemory, Text};
use keeper::Keeper;
use std::alloc::Global;
use std::marker::Brand;
use std::sync::{Mutex, Wait};
use std::thread;
use std::thread::Threads;

/// Work that threads share, one line at a time. Lanes and lines count from 0.
trait Turns {
    /// Returns how many lines of the lane are done, and how many it has.
    fn lines(&self, place: usize) -> (usize, usize);

    /// Does the next line of the lane. Returns whether it did.
    fn turn(&mut self, alloc: Global, place: usize) -> bool;
}

impl<J: Beginning, K: Keeper, B: Bell> Turns for Round<J, K, B> {
    fn lines(&self, place: usize) -> (usize, usize) {
        Round::lines(self, place)
    }

    fn turn(&mut self, alloc: Global, place: usize) -> bool {
        Round::turn(self, alloc, place)
    }
}

// The number from 1 of a place from 0, at most 2^32 - 1.
fn numbered(place: usize) -> u32 {
    place.min(4_294_967_294) as u32 + 1
}

// Does the remaining lines of a lane, taking the lock for each.
fn work<M: Turns, G: Gate, R: Wait>(
    rt: &R,
    alloc: Global,
    shared: &Mutex<M>,
    place: usize,
    gate: &G,
) {
    let (done, all) = shared.lock(rt).lines(place);
    for line in done..all {
        gate.before(numbered(place), numbered(line));
        let went = shared.lock(rt).turn(alloc, place);
        gate.after(numbered(place), numbered(line));
        if !went {
            return;
        }
    }
}

// Runs each lane in a thread of its own, if the machine provides one. Then this thread does what they left.
fn in_threads<M: Turns + Send, G: Gate + Sync, R: Threads + Wait + Sync>(
    rt: &R,
    alloc: Global,
    turns: M,
    count: usize,
    gate: &G,
) -> M {
    let held: Mutex<M> = Mutex::new(turns);
    let shared = &held;
    let done = thread::map_indices(
        rt,
        alloc,
        count,
        &|place| work(rt, alloc, shared, place, gate),
    );
    drop(done);
    for place in 0..count {
        work(rt, alloc, shared, place, gate);
    }
    held.into_inner()
}

/// The desk and the lanes after the lanes ran at once.
#[derive(Drop)]
pub struct Finished<K, B> {
    pub desk: Desk<K, B>,
    pub lanes: Vec<Lane>,
    /// Whether every item was answered. False if memory ran out.
    pub whole: bool,
}

// The number of items of all lanes, at most 2^64 - 1.
fn items_of_all(lanes: &[Lane]) -> u64
    ensures { result ≡ min (sum_by (λ l. length (items_in l)) lanes.now) (2 ^ 64 - 1) }
{
    let mut all = 0u64;
    for lane in lanes {
        all = all.saturating_add(lane.items().len() as u64);
    }
    all
}

// Whether each lane has an outcome for each item.
fn are_done(lanes: &[Lane]) -> bool
    ensures { result ≡ list_all is_done lanes.now }
{
    for lane in lanes {
        if lane.done() != lane.items().len() {
            return false;
        }
    }
    true
}

// Whether memory never ran out and each item was answered.
fn are_whole(ended: bool, lanes: &[Lane]) -> bool
    ensures ended { OnTrue result (ended ≡ false) }
    ensures done { OnTrue result (list_all is_done lanes.now ≡ true) }
{
    !ended && are_done(lanes)
}

fn run_from<
    J: Beginning + Send + Sync,
    K: Keeper + Send,
    B: Bell + Send,
    G: Gate + Sync,
    R: Threads + Wait + Sync,
>(rt: &R, alloc: Global, desk: Desk<K, B>, lanes: Vec<Lane>, gate: &G) -> Finished<K, B>
    requires desk { J.began.desk ≡ desk_seen K.seen B.seen desk }
    requires items { J.began.items ≡ map items_in lanes.items }
    requires fresh { AllByRecursion IsFresh lanes.items }
    ensures on { DeskGoesOn J.began.desk (desk_seen K.seen B.seen result.desk) }
    ensures items { map items_in result.lanes.items ≡ J.began.items }
    ensures merged { OnTrue result.whole (AreMerged (kept_at J.began.desk.keeper)
        (kept_at (K.seen result.desk.keeper)) J.began.desk.state result.lanes.items result.desk.board.state) }
    ensures done { OnTrue result.whole (list_all is_done result.lanes.items ≡ true) }
    ensures part { AreMergedInPart (kept_at J.began.desk.keeper) (kept_at (K.seen result.desk.keeper))
        J.began.desk.state result.lanes.items result.desk.board.state }
{
    let count = lanes.len();
    let round = in_threads(rt, alloc, Round::<J, K, B>::new(desk, lanes), count, gate);
    let (desk, lanes, ended) = round.into_parts();
    let whole = are_whole(ended, lanes.as_slice());
    Finished { desk, lanes, whole }
}

/// Runs lanes at once on one desk, each in a thread of its own if the machine provides one. A thread takes the lock
/// for each item, so the outcomes of all lanes form the board's one history. If memory runs out, no further item is
/// answered.
pub fn run_lanes<K: Keeper + Send, B: Bell + Send, G: Gate + Sync, R: Threads + Wait + Sync>(
    rt: &R,
    alloc: Global,
    desk: Desk<K, B>,
    lanes: Vec<Lane>,
    gate: &G,
) -> Finished<K, B>
    requires fresh { AllByRecursion IsFresh lanes.items }
    // Each lane keeps its items.
    ensures items { map items_in result.lanes.items ≡ map items_in lanes.items }
    // Every item has its outcome, in the one history from the first state of the desk to its last.
    ensures merged { OnTrue result.whole (AreMerged (kept_at (K.seen desk.keeper))
        (kept_at (K.seen result.desk.keeper)) desk.board.state result.lanes.items result.desk.board.state) }
    ensures done { OnTrue result.whole (list_all is_done result.lanes.items ≡ true) }
    // Each outcome follows from its position in the history.
    ensures history { OnTrue result.whole (AreOneHistory (K.seen desk.keeper).health.faults
        (K.seen result.desk.keeper).health.faults desk.board.state result.lanes.items result.desk.board.state) }
    // If memory ran out, the outcomes so far form one history. After them at most one tick was made.
    ensures part { AreMergedInPart (kept_at (K.seen desk.keeper)) (kept_at (K.seen result.desk.keeper))
        desk.board.state result.lanes.items result.desk.board.state }
    ensures on { DeskGoesOn (desk_seen K.seen B.seen desk) (desk_seen K.seen B.seen result.desk) }
{
    let _ = desk.board.now();
    gate.expects(items_of_all(&lanes));
    run_from::<Brand, K, B, G, R>(rt, alloc, desk, lanes, gate)
}

/// The desk after a race, and the text of the race, or out of memory.
#[derive(Drop)]
pub struct Raced<K, B> {
    pub desk: Desk<K, B>,
    pub text: Result<Text, OutOfMemory>,
}

fn told_of<K: Keeper, B: Bell>(alloc: Global, finished: Finished<K, B>) -> Raced<K, B>
    requires { IsTrue finished.desk.board.listed }
    ensures desk { result.desk ≡ finished.desk }
    ensures whole { IfOk result.text (λ _. finished.whole ≡ true) }
    ensures text { IfOk result.text (λ t. t ≡ race_text finished.desk.board.state finished.lanes.items) }
{
    let Finished { desk, lanes, whole } = finished;
    let text = if whole {
        race_text(alloc, &desk.board, &lanes)
    } else {
        Err(OutOfMemory)
    };
    Raced { desk, text }
}

/// Runs scripts at once, each as a lane. Returns the text of the race if every line has its outcome. The board must
/// hold the entries of its history.
pub fn race<K: Keeper + Send, B: Bell + Send, G: Gate + Sync, R: Threads + Wait + Sync>(
    rt: &R,
    alloc: Global,
    desk: Desk<K, B>,
    scripts: &[Text],
    gate: &G,
) -> Raced<K, B>
    requires listed { IsTrue desk.board.listed }
    ensures race { IfOk result.text (λ t. IsRace (kept_at (K.seen desk.keeper))
        (kept_at (K.seen result.desk.keeper)) desk.board.state scripts.now result.desk.board.state t) }
    // If memory ran out, some of the lines were answered. After them at most one tick was made.
    ensures part { IsRaceInPart (kept_at (K.seen desk.keeper)) (kept_at (K.seen result.desk.keeper))
        desk.board.state scripts.now result.desk.board.state }
    ensures on { DeskGoesOn (desk_seen K.seen B.seen desk) (desk_seen K.seen B.seen result.desk) }
{
    match lanes_of(alloc, scripts) {
        Ok(lanes) => told_of(alloc, run_lanes(rt, alloc, desk, lanes, gate)),
        Err(OutOfMemory) => Raced {
            desk,
            text: Err(OutOfMemory),
        },
    }
}
