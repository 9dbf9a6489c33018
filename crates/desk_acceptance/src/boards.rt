ghost use Rattle.std.specs.Prelude.{◌≡◌, ◌<◌, ◌≤◌, IfOk, IfSome};
ghost use Rattle.asks.specs.Forms.{CallHasForms};

use crate::few::{applied, ticked};
use crate::texts::{AFTERNOON, CANCELLED, STOPPED, WATCHED};
use alerts::{Notice, NoticeKind, Notices};
use asks::Call;
use desk::Board;
use desk_io::{LineFeeds, OutOfMemory, runs_between};
use desk_json::{CallFault, read_line};
use desk_state::{Entry, What};
use desk_time::{LAST, Minute};
use ops_tables::Tables;
use rules::Steps;
use small_airline::{SIGNED, script_of, small_tables};
use std::alloc::Global;
use std::marker::Brand;
use std::sync::ledger::{Blank, Ledger};
use std::test::Fail;
use table_files::TableFault;

// What was told of an alert as a letter: opened, changed, or X for closed.
fn letter(notice: &Notice) -> u8 {
    match notice.kind {
        NoticeKind::Opened => b'O',
        NoticeKind::Changed => b'C',
        NoticeKind::Closed => b'X',
    }
}

fn push_letters(told: &mut Vec<u8>, notices: &Notices) -> Result<(), OutOfMemory> {
    for notice in notices.as_slice() {
        told.push(letter(notice))?;
    }
    Ok(())
}

// Makes a call in lane 3 at its moment, as the desk does for a line of a script. What is told of alerts is added, or a
// dot where nothing is told.
fn make<L: Ledger>(
    alloc: Global,
    board: &mut Board,
    at: Minute,
    call: &Call,
    steps: &mut Steps<L>,
    told: &mut Vec<u8>,
) -> Result<(), OutOfMemory>
    requires within { at ≤ LAST }
    requires form { CallHasForms call.now }
{
    let before = told.len();
    if board.now() < at {
        let notices = ticked(alloc, board, at, steps)?;
        push_letters(told, &notices)?;
    }
    let notices = applied(alloc, board, call, steps)?;
    push_letters(told, &notices)?;
    if told.len() == before {
        told.push(b'.')?;
    }
    Ok(())
}

/// The moment and the call of a line, if it is one.
pub(crate) fn call_in(alloc: Global, line: &[u8]) -> Result<Option<(Minute, Call)>, OutOfMemory>
    ensures within { IfOk result (λ o. IfSome o (λ p. p.0 ≤ LAST)) }
    ensures form { IfOk result (λ o. IfSome o (λ p. CallHasForms p.1)) }
{
    match read_line(alloc, line) {
        Ok((at, call)) => Ok(Some((at, call))),
        Err(CallFault::Bad(_)) => Ok(None),
        Err(CallFault::OutOfMemory) => Err(OutOfMemory),
    }
}

/// Makes the call of each line of a script.
pub(crate) fn make_all<L: Ledger>(
    alloc: Global,
    board: &mut Board,
    script: &[u8],
    steps: &mut Steps<L>,
    told: &mut Vec<u8>,
) -> Result<(), OutOfMemory> {
    for line in &runs_between::<LineFeeds>(alloc, script)? {
        if let Some((at, call)) = call_in(alloc, line.bytes())? {
            make(alloc, board, at, &call, steps, told)?;
        }
    }
    Ok(())
}

// An entry of the history as a letter: T for a tick, C for a call, K for the captain's call in lane 3,
// without his key.
fn entry_letter(entry: &Entry) -> u8 {
    match &entry.what {
        What::Tick { .. } => b'T',
        What::Asked { call, .. } => {
            let is_captains = entry.lane == 3
                && call.number == 1
                && call.actor.bytes() == b"C7".as_slice()
                && call.key.bytes().is_empty();
            if is_captains { b'K' } else { b'C' }
        }
    }
}

fn push_entries(board: &Board, entries: &mut Vec<u8>) -> Result<(), OutOfMemory> {
    for i in 0..board.entries() {
        if board.is_listed() {
            entries.push(entry_letter(board.entry(i)))?;
        }
    }
    Ok(())
}

// Plays a script. What is told of alerts and the entries of the history are added.
fn play<L: Ledger>(
    alloc: Global,
    tables: Tables,
    script: &[u8],
    blank: Blank,
    told: &mut Vec<u8>,
    entries: &mut Vec<u8>,
) -> Result<(), OutOfMemory>
    requires name { blank.name ≡ L.name }
    requires parts { blank.parts ≡ L.parts }
    requires some { 0 < blank.parts }
{
    let mut steps = Steps::<L>::new(blank);
    let mut board = Board::new(alloc, tables);
    board.hold_entries(alloc);
    let made = make_all(alloc, &mut board, script, &mut steps, told);
    let shown = push_entries(&board, entries);
    made.and(shown)
}

// What is told of alerts at each line of a script in two parts over the small airline, and the entries of the history.
fn seen_after(alloc: Global, lines: &str, more: &str) -> Result<(Vec<u8>, Vec<u8>), TableFault> {
    let script = script_of(alloc, lines, more)?;
    let tables = small_tables(alloc)?;
    let mut told = Vec::new(alloc);
    let mut entries = Vec::new(alloc);
    play::<Brand>(
        alloc,
        tables,
        &script,
        Blank::new(1),
        &mut told,
        &mut entries,
    )?;
    Ok((told, entries))
}

// The history has a tick for each moment and a call for each line, but none for the view: 7 ticks and 9 calls.
// An alert is told when it opens and when it changes, by a tick too. It is closed by a concurrence, a cancellation or
// the last arrival. An acknowledgement tells nothing.
#[test]
fn notices_follow_the_alert_and_the_history_has_ticks_and_calls(
    rt: HostRuntime,
) -> Result<(), Fail> {
    for (lines, more, wanted, entered) in [
        (
            SIGNED,
            AFTERNOON,
            b".......O.C".as_slice(),
            b"TCCCTCCTCTKTCTTC".as_slice(),
        ),
        (SIGNED, CANCELLED, b".......O.CX", b"TCCCTCCTCTKTCTTCTC"),
        (
            SIGNED,
            WATCHED,
            b"........OC....XO..CX",
            b"TCCCTCCTCTKTCTCTCTCTCTCTCTCTCTTTTC",
        ),
        (STOPPED, "", b"..........O", b"TCCCTCCTCTKTCTCTT"),
    ] {
        let (told, entries) = seen_after(rt.alloc(), lines, more)?;
        assert!(rt;
            told.as_slice() == wanted && entries.as_slice() == entered,
            "{more}"
        );
    }
    Ok(())
}
