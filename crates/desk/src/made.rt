ghost use Rattle.std.specs.Prelude.{◌≡◌, ◌≤◌, ◌++◌, length, ℕ, IfOk, OnOk, OnErr};
ghost use Rattle.asks.specs.Forms.{CallHasForms};
ghost use Rattle.desk.specs.InPart.{MayHaveBegun};
ghost use Rattle.desk.specs.Keeping.{AreGiven, kept_at};
ghost use Rattle.desk.specs.Made as spec;
ghost use Rattle.desk.specs.Made.{came_of, made_item, made_items, IsMade, IsMadeInPart, IsMadeOf};
ghost use Rattle.desk.specs.Seen.{desk_seen, DeskGoesOn};
ghost use Rattle.made_items.specs.Calls.{Came};

use crate::gates::Gate;
use crate::run::{answer_passed, outcome_of};
use crate::settling::Desk;
use alerts::Bell;
use asks::{Call, Done, HeldCall, Reply};
use board::Board;
use desk_io::{OutOfMemory, push_all};
use desk_state::{Item, Outcome, Said};
use keeper::Keeper;
use made_items::{MADE_AT, Maker};
use rules::Steps;
use std::alloc::Global;
use std::sync::ledger::Ledger;

fn done_of(said: &Said) -> Option<Done>
    ensures { result ≡ spec.done_of said.now }
{
    match said {
        Said::Reply(Reply::Done(done)) => Some(*done),
        _ => None,
    }
}

fn is_done(said: &Said) -> bool
    ensures { result ≡ spec.is_done said.now }
{
    matches!(said, Said::Reply(Reply::Done(_)))
}

fn is_refused(said: &Said) -> bool
    ensures { result ≡ spec.is_refused said.now }
{
    matches!(said, Said::Reply(Reply::Refused(_)))
}

fn done_in(outcomes: &[Outcome]) -> usize
    ensures { result ≡ spec.done_in outcomes.now }
{
    outcomes.iter().filter(|o| is_done(&o.said)).count()
}

fn refused_in(outcomes: &[Outcome]) -> usize
    ensures { result ≡ spec.refused_in outcomes.now }
{
    outcomes.iter().filter(|o| is_refused(&o.said)).count()
}

// The number of items that are made for `count` flights.
#[tactic(auto, using(crate::proofs::MadeLaws::many_made))]
fn how_many(count: u32) -> u64
    ensures { (number : ℕ) (came : Came) → result ≡ length (made_items number count came) }
{
    3 + 5 * u64::from(count)
}

// Answers a made call. `number` counts the items from 1.
fn answer_made_call<K: Keeper, B: Bell, G: Gate, L: Ledger>(
    alloc: Global,
    desk: &mut Desk<K, B>,
    call: Call,
    number: u32,
    gate: &G,
    steps: &mut Steps<L>,
) -> Result<Outcome, OutOfMemory>
    requires { CallHasForms call }
    ensures given { IfOk result (λ o. IsMadeOf (kept_at (K.seen desk.old.keeper))
        (kept_at (K.seen desk.new.keeper)) desk.old.board.state call desk.new.board.state o) }
    ensures err { OnErr result (MayHaveBegun 1 (made_item call) desk.old.board.state desk.new.board.state) }
    ensures on { DeskGoesOn (desk_seen K.seen B.seen desk.old) (desk_seen K.seen B.seen desk.new) }
{
    let item = Item::Call {
        at: MADE_AT,
        call: HeldCall::of(alloc, call)?,
    };
    let answered = answer_passed(alloc, desk, &item, number, gate, steps)?;
    Ok(outcome_of(answered))
}

// Makes the calls of a seed, and answers them one by one.
fn outcomes_made<K: Keeper, B: Bell, G: Gate, L: Ledger>(
    alloc: Global,
    desk: &mut Desk<K, B>,
    number: u32,
    count: u32,
    gate: &G,
    steps: &mut Steps<L>,
) -> Result<Vec<Outcome>, OutOfMemory>
    requires { count ≤ 20_000 }
    ensures given { IfOk result (λ v. AreGiven 1 (kept_at (K.seen desk.old.keeper))
        (kept_at (K.seen desk.new.keeper)) desk.old.board.state (made_items number count (came_of v.items))
        desk.new.board.state v.items) }
    ensures err { OnErr result (IsMadeInPart (kept_at (K.seen desk.old.keeper))
        (kept_at (K.seen desk.new.keeper)) desk.old.board.state number count desk.new.board.state) }
    ensures on { DeskGoesOn (desk_seen K.seen B.seen desk.old) (desk_seen K.seen B.seen desk.new) }
{
    gate.expects(how_many(count));
    let mut maker = Maker::of(number, count);
    let mut next = 1u32;
    let mut outcomes = Vec::new(alloc);
    while let Some(call) = maker.next(alloc)? {
        let outcome = answer_made_call(alloc, desk, call, next, gate, steps)?;
        maker.note(done_of(&outcome.said));
        outcomes.push(outcome)?;
        next = next.saturating_add(1);
    }
    Ok(outcomes)
}

fn push_first(alloc: Global, out: &mut Vec<u8>, number: u32, count: u32) -> Result<(), OutOfMemory>
    ensures { OnOk result (out.new.items ≡ out.old.items ++ spec.first_line number count) }
{
    let number = number.to_string(alloc)?;
    let count = count.to_string(alloc)?;
    push_all(
        out,
        &[b"MAKE ", number.as_bytes(), b" ", count.as_bytes(), b"\n"],
    )
}

// Writes a line of three words, each followed by its count.
fn push_counts(
    alloc: Global,
    out: &mut Vec<u8>,
    one: &[u8],
    a: usize,
    two: &[u8],
    b: usize,
    three: &[u8],
    c: usize,
) -> Result<(), OutOfMemory>
    ensures { OnOk result (out.new.items ≡ out.old.items ++ spec.three_counts one.now a two.now b three.now c) }
{
    let first = a.to_string(alloc)?;
    let second = b.to_string(alloc)?;
    let third = c.to_string(alloc)?;
    push_all(out, &[one, first.as_bytes(), two, second.as_bytes()])?;
    push_all(out, &[three, third.as_bytes(), b"\n"])
}

fn text_of_made(
    alloc: Global,
    board: &Board,
    number: u32,
    count: u32,
    outcomes: &[Outcome],
) -> Result<Vec<u8>, OutOfMemory>
    ensures { IfOk result (λ v. v.items ≡ spec.made_text number count outcomes.now board.now.state) }
{
    let mut out = Vec::new(alloc);
    push_first(alloc, &mut out, number, count)?;
    push_counts(
        alloc,
        &mut out,
        b"ITEMS ",
        outcomes.len(),
        b" DONE ",
        done_in(outcomes),
        b" REFUSED ",
        refused_in(outcomes),
    )?;
    push_counts(
        alloc,
        &mut out,
        b"HISTORY ",
        board.entries(),
        b" RELEASES ",
        board.releases_held(),
        b" REPORTS ",
        board.reports_held(),
    )?;
    Ok(out)
}

/// Makes the calls of a seed for `count` flights, and answers them one by one. A call may depend on the outcomes
/// before it. Returns three lines: how many calls were made, done and refused, and what the board holds at the end.
pub fn make_from<K: Keeper, B: Bell, G: Gate, L: Ledger>(
    alloc: Global,
    desk: &mut Desk<K, B>,
    number: u32,
    count: u32,
    gate: &G,
    steps: &mut Steps<L>,
) -> Result<Vec<u8>, OutOfMemory>
    requires { count ≤ 20_000 }
    ensures made { IfOk result (λ v. IsMade (kept_at (K.seen desk.old.keeper))
        (kept_at (K.seen desk.new.keeper)) desk.old.board.state number count desk.new.board.state v.items) }
    // If memory runs out, a prefix of the items was answered. Of the next item at most the tick was made.
    ensures err { OnErr result (IsMadeInPart (kept_at (K.seen desk.old.keeper))
        (kept_at (K.seen desk.new.keeper)) desk.old.board.state number count desk.new.board.state) }
    ensures on { DeskGoesOn (desk_seen K.seen B.seen desk.old) (desk_seen K.seen B.seen desk.new) }
{
    let outcomes = outcomes_made(alloc, desk, number, count, gate, steps)?;
    text_of_made(alloc, &desk.board, number, count, &outcomes)
}
