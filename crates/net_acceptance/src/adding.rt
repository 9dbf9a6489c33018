ghost use Rattle.std.specs.Prelude.{◌≡◌, ℕ, ◌+◌, ◌<◌, ◌≤◌, ◌++◌, ◌∷◌, [], if◌then◌else◌, IfOk, length, take};
ghost use mathlib.Core.List.{IsPrefix};
ghost use Rattle.turn_lock.specs.Elements.{AddsNoneOf, HasNoneAbove};
ghost use Rattle.turn_lock.specs.Passes.{lock_id, pass_lock, pass_number, pass_numbers, pass_seen, pass_splits};
ghost use Rattle.net_acceptance.specs.Marks.{lane_of, mark, marks};

use crate::record::{Mark, Record};
use desk_io::OutOfMemory;
use std::alloc::Global;
use std::sync::Wait;
use std::thread::{Threads, join};
use turn_lock::{Pass, TurnLock};

// Takes a turn, and adds the item if memory allows.
fn add_one<R: Wait>(
    rt: &R,
    lock: &TurnLock<Record>,
    pass: Pass<Record>,
    lane: u32,
    item: u64,
) -> (bool, Pass<Record>)
    requires { (pass_lock pass ≡ lock_id lock.now) × (pass_number pass ≡ lane) }
    ensures lock { (pass_lock result.1 ≡ pass_lock pass) × (pass_number result.1 ≡ lane) }
    ensures numbers { pass_numbers result.1 ≡ pass_numbers pass }
    ensures seen { IsPrefix (pass_seen pass) (pass_seen result.1) }
    ensures own { lane_of lane (pass_seen result.1)
        ≡ lane_of lane (pass_seen pass) ++ (if result.0 then mark lane item ∷ [] else []) }
{
    let mut turn = lock.take(rt, pass);
    let added = turn.value().add(Mark { lane, item }).is_ok();
    (added, lock.give(turn))
}

/// Adds the items, one in each turn, until memory runs out, and answers how many it added.
pub fn add_all<R: Wait>(
    rt: &R,
    lock: &TurnLock<Record>,
    mut pass: Pass<Record>,
    lane: u32,
    items: &[u64],
) -> (usize, Pass<Record>)
    requires { (pass_lock pass ≡ lock_id lock.now) × (pass_number pass ≡ lane) }
    ensures lock { (pass_lock result.1 ≡ pass_lock pass) × (pass_number result.1 ≡ lane) }
    ensures numbers { pass_numbers result.1 ≡ pass_numbers pass }
    ensures some { result.0 ≤ length items.now }
    ensures seen { IsPrefix (pass_seen pass) (pass_seen result.1) }
    ensures own { lane_of lane (pass_seen result.1)
        ≡ lane_of lane (pass_seen pass) ++ marks lane (take result.0 items.now) }
{
    let mut count = 0;
    for item in items {
        let (added, next) = add_one(rt, lock, pass, lane, *item);
        pass = next;
        if !added {
            break;
        }
        count += 1;
    }
    (count, pass)
}

// Two threads add, each by its pass.
fn add_both<R: Threads + Wait + Sync>(
    rt: &R,
    lock: &TurnLock<Record>,
    one: Pass<Record>,
    two: Pass<Record>,
    first: &[u64],
    second: &[u64],
) -> ((usize, Pass<Record>), (usize, Pass<Record>))
    requires one { (pass_lock one ≡ lock_id lock.now) × (pass_number one ≡ 1) }
    requires two { (pass_lock two ≡ lock_id lock.now) × (pass_number two ≡ 2) }
    ensures lock { (pass_lock result.0.1 ≡ pass_lock one) × (pass_lock result.1.1 ≡ pass_lock two) }
    ensures numbers { (pass_numbers result.0.1 ≡ pass_numbers one) × (pass_numbers result.1.1 ≡ pass_numbers two) }
    ensures some { (result.0.0 ≤ length first.now) × (result.1.0 ≤ length second.now) }
    ensures own_one { lane_of 1 (pass_seen result.0.1)
        ≡ lane_of 1 (pass_seen one) ++ marks 1 (take result.0.0 first.now) }
    ensures own_two { lane_of 2 (pass_seen result.1.1)
        ≡ lane_of 2 (pass_seen two) ++ marks 2 (take result.1.0 second.now) }
{
    join(
        rt,
        move || -> (usize, Pass<Record>)
            requires { (pass_lock one ≡ lock_id lock.now) × (pass_number one ≡ 1) }
            ensures lock { pass_lock result.1 ≡ pass_lock one }
            ensures numbers { pass_numbers result.1 ≡ pass_numbers one }
            ensures some { result.0 ≤ length first.entry.now }
            ensures own { lane_of 1 (pass_seen result.1)
                ≡ lane_of 1 (pass_seen one) ++ marks 1 (take result.0 first.entry.now) }
        { add_all(rt, lock, one, 1, first) },
        move || -> (usize, Pass<Record>)
            requires { (pass_lock two ≡ lock_id lock.now) × (pass_number two ≡ 2) }
            ensures lock { pass_lock result.1 ≡ pass_lock two }
            ensures numbers { pass_numbers result.1 ≡ pass_numbers two }
            ensures some { result.0 ≤ length second.entry.now }
            ensures own { lane_of 2 (pass_seen result.1)
                ≡ lane_of 2 (pass_seen two) ++ marks 2 (take result.0 second.entry.now) }
        { add_all(rt, lock, two, 2, second) },
    )
}

// Takes the last turn, and ends the lock.
fn end<R: Wait>(rt: &R, lock: TurnLock<Record>, pass: Pass<Record>) -> Record
    requires { pass_lock pass ≡ lock_id lock }
    ensures seen { IsPrefix (pass_seen pass) result.marks.items }
    ensures own { AddsNoneOf (λ m. m.lane) (pass_numbers pass) (pass_seen pass) result.marks.items }
    ensures given { pass_number pass ≡ 0 → HasNoneAbove (λ m. m.lane) (pass_splits pass) result.marks.items }
{
    let turn = lock.take(rt, pass);
    lock.finish(turn)
}

/// Two threads add items, by the lanes 1 and 2, as far as memory allows. The record has what each added, in order, and
/// nothing else.
pub fn added_by_two<R: Threads + Wait + Sync>(
    rt: &R,
    alloc: Global,
    first: &[u64],
    second: &[u64],
) -> Result<(Record, usize, usize), OutOfMemory>
    ensures some { IfOk result (λ r. (r.1 ≤ length first.now) × (r.2 ≤ length second.now)) }
    ensures one { IfOk result (λ r. lane_of 1 r.0.marks.items ≡ marks 1 (take r.1 first.now)) }
    ensures two { IfOk result (λ r. lane_of 2 r.0.marks.items ≡ marks 2 (take r.2 second.now)) }
    ensures all { IfOk result (λ r. length r.0.marks.items ≡ r.1 + r.2) }
{
    let Ok((lock, mut pass)) = TurnLock::new(alloc, Record::new(alloc)) else {
        return Err(OutOfMemory);
    };
    let Ok(one) = lock.split(&mut pass) else {
        end(rt, lock, pass);
        return Err(OutOfMemory);
    };
    let Ok(two) = lock.split(&mut pass) else {
        end(rt, lock, pass);
        return Err(OutOfMemory);
    };
    let ((first_count, one), (second_count, two)) = add_both(rt, &lock, one, two, first, second);
    lock.join(&mut pass, one);
    lock.join(&mut pass, two);
    Ok((end(rt, lock, pass), first_count, second_count))
}
