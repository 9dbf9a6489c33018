//! Plays test cases: calls the program over objects in memory, and compares the results with those that the cases
//! expect.
//!
//! The arguments name files of cases. The program prints a line for each difference, and then a line with the counts
//! of passed and failed cases. The exit status is 0 if nothing differs, 8 if memory ran out, and otherwise 1.
//!
//! A case or a step that compares nothing counts as a difference too. So does a call that must fail and wasn't made,
//! a file whose cases can't be played, and a run without arguments.
//!
//! A file is a JSON object with `cases`, and optionally `texts`, by their names, and `common`. A key that a case
//! lacks is taken from `common`. A case has these keys:
//!
//! - `name`: what must hold, as a sentence.
//! - `tables`: a folder with the thirteen tables, or an object of texts by the names of their files.
//! - `sources`: an object of further texts by their names. A source with the name of a table replaces that table.
//! - `words`: the command line, split at blanks, or a list of arguments.
//! - `rows`: the rows that the keeper holds at first, as lines `KIND KEY BODY` in order.
//! - `clock`: a list of the moments that the clock returns. The last one is repeated. The default is
//!   2000-01-01T00:00Z.
//! - `links`: the links that come to the door, a list of `{"input": TEXT, "cut": N, "after": M}`. A read returns at
//!   most N bytes, by default 4,096. Nothing is read before the link of number M (from 1) has ended. The default is
//!   the link before, and 0 means none. Once no link is left the door fails.
//! - `bells`: a list of dispatchers. There is a bell for each, which is rung for his notices; `*` means all
//!   dispatchers.
//! - `fail`: the calls that fail, as lists of numbers from 0, of `shelf`, `sink`, `keeper`, `clock` and `door`. The
//!   keeper's calls are its commits, and `"load"` in its list makes loading fail. The door's calls are its opening
//!   and each accept. `links` and `bells` are lists of such lists, one for each link or bell. A link's calls are its
//!   reads and writes together. Each step counts from 0 again.
//! - `unmade`: calls that would fail but must not be made, in the same form.
//!
//! The expected results have the keys below. A result whose key is missing isn't compared.
//!
//! - `status`: the exit status.
//! - `board`: whether a board is left.
//! - `port`: the port at which the door was last opened, or null.
//! - `asked`: how many moments the clock returned.
//! - `written`: the text written to the sink.
//! - `left`: the rows that the keeper holds at the end.
//! - `links_written`: a list of the texts written to the links that were given back.
//! - `heard`: a list of texts, one for each bell, with a line `DESK RELEASE vVERSION WORD` for each notice. WORD is
//!   opened, changed or closed.
//! - `dropped`: a list of `[PLACE, COUNT]`, one for each bell that failed: its place, from 0, and how many notices it
//!   heard.
//! - `gate`: `[ITEMS, PASSED, ORDER]`. ITEMS is how many items were announced before the first, or null if none were.
//!   PASSED is the number of items around which the gate was called. ORDER tells whether the items of lane 1 came in
//!   order. Instead of the list there is null if the gate wasn't used.
//!
//! A case may also have:
//!
//! - `steps`: a list of objects with the keys above except `rows`. They are played one after another, each over the
//!   rows that the step before left. A key that a step lacks is taken from its case.
//! - `each`: `{"from": A, "to": B}`. The case is played for each number from A to B. `"each"` stands for that number
//!   wherever a number is read.
//!
//! A text is a string, a list of lines, or a reference. A line in a list is a string, a reference, or any other
//! object, which stands for its compact JSON. A reference is `{"text": NAME}`, `{"times": N, "text": NAME}`, `{"hex":
//! DIGITS}`, `{"file": PATH}` or `{"join": [TEXT, ..]}`.
//!
//! An expected text may instead be an object of checks. `first` is the first line. `lines`, `prefix` and `part` are
//! lists of `[LINE, COUNT]`: COUNT lines must equal LINE, begin with it, or contain it. LINE is a string, or JSON
//! that stands for its compact form. `left` may be `{"same": true}`, if the rows must be unchanged.
#![tactic(auto)]

mod cases;
mod command;
mod comparing;
mod counting;
mod fails;
mod fault;
mod heard;
mod members;
mod objects;
mod outside;
mod play;
mod playing;
mod report;
mod rows;
mod shelf;
mod texts;

use crate::members::{check_keys, data_of};
use crate::play::Play;
use crate::report::Report;
use desk_io::{FileShelf, OutOfMemory, Shelf, Sink, StdoutSink, WholeFault, read_whole};
use serde_json::Value;
use std::alloc::Global;
use std::env;
use std::process::ExitCode;
use std::sync::Wait;
use std::thread::Threads;

// How many cases passed, and how many failed.
#[derive(Clone, Copy)]
struct Counts {
    passed: u64,
    failed: u64,
}

// The arguments after the program's name.
fn words_of(rt: &HostRuntime) -> Result<Vec<String>, OutOfMemory> {
    let mut words = Vec::new(rt.alloc());
    let Ok(arguments) = env::args(rt) else {
        return Ok(words);
    };
    for word in arguments.skip(1) {
        words.push(word)?;
    }
    Ok(words)
}

// Reports why no case of a file can be played, and counts one failed case.
fn refuse(
    alloc: Global,
    why: &str,
    report: &mut Report<'_>,
    counts: &mut Counts,
) -> Result<(), OutOfMemory> {
    counts.failed = counts.failed.saturating_add(1);
    report.of_file(alloc, why)
}

// Plays the cases of a file, and counts them.
fn play_cases<R: Threads + Wait + Sync, F: Shelf>(
    rt: &R,
    alloc: Global,
    files: &mut F,
    file: &Value,
    cases: &[Value],
    report: &mut Report<'_>,
    counts: &mut Counts,
) -> Result<(), OutOfMemory> {
    for case in cases {
        if cases::passes(rt, &Play::of(alloc, file, case), files, report)? {
            counts.passed = counts.passed.saturating_add(1);
        } else {
            counts.failed = counts.failed.saturating_add(1);
        }
    }
    Ok(())
}

fn play_data<R: Threads + Wait + Sync, F: Shelf>(
    rt: &R,
    alloc: Global,
    files: &mut F,
    file: &Value,
    report: &mut Report<'_>,
    counts: &mut Counts,
) -> Result<(), OutOfMemory> {
    if let Err(fault) = check_keys(file, &["texts", "common", "cases"], &[], "the file") {
        let why = fault.shown(alloc)?;
        return refuse(alloc, why.as_str(), report, counts);
    }
    match file.get("cases").and_then(Value::as_array) {
        None => refuse(alloc, "it has no list of cases", report, counts),
        Some(cases) if cases.is_empty() => refuse(alloc, "it has no case", report, counts),
        Some(cases) => play_cases(rt, alloc, files, file, cases.as_slice(), report, counts),
    }
}

// Reads the file of this name, and plays its cases.
fn play_file<R: Threads + Wait + Sync, F: Shelf>(
    rt: &R,
    alloc: Global,
    files: &mut F,
    name: &str,
    report: &mut Report<'_>,
    counts: &mut Counts,
) -> Result<(), OutOfMemory> {
    let text = match read_whole(alloc, files, name) {
        Ok(text) => text,
        Err(WholeFault::ReadFault) => return refuse(
            alloc,
            "no file can be read there",
            report,
            counts,
        ),
        Err(WholeFault::TooLong) => return refuse(alloc, "it is too long", report, counts),
        Err(WholeFault::OutOfMemory) => return Err(OutOfMemory),
    };
    match data_of(alloc, text.bytes())? {
        Some(file) => play_data(rt, alloc, files, &file, report, counts),
        None => refuse(alloc, "it isn't JSON", report, counts),
    }
}

// Plays the cases of the file of this name, and writes the differences.
fn play_named<R: Threads + Wait + Sync, F: Shelf, O: Sink>(
    rt: &R,
    alloc: Global,
    files: &mut F,
    out: &mut O,
    name: &str,
    counts: &mut Counts,
) -> Result<(), OutOfMemory> {
    let mut report = Report::new(alloc, name);
    play_file(rt, alloc, files, name, &mut report, counts)?;
    if out.write(report.lines().as_bytes()).is_err() {
        counts.failed = counts.failed.saturating_add(1);
    }
    Ok(())
}

fn play_files<R: Threads + Wait + Sync, F: Shelf, O: Sink>(
    rt: &R,
    alloc: Global,
    files: &mut F,
    out: &mut O,
    names: &[String],
) -> Result<Counts, OutOfMemory> {
    let mut counts = Counts {
        passed: 0,
        failed: 0,
    };
    if names.is_empty() {
        counts.failed = 1;
        let _ = out.write(b"no file of cases is named\n");
    }
    for name in names {
        play_named(rt, alloc, files, out, name.as_str(), &mut counts)?;
    }
    Ok(counts)
}

fn main(rt: HostRuntime) -> ExitCode {
    let Ok(names) = words_of(&rt) else {
        return ExitCode::from(8);
    };
    let mut files = FileShelf::new(rt);
    let mut out = StdoutSink::new(rt);
    match play_files(&rt, rt.alloc(), &mut files, &mut out, &names) {
        Ok(Counts { passed, failed }) => {
            let shown = println!(rt; "scenarios: {passed} passed, {failed} failed");
            ExitCode::from(u8::from(failed > 0 || shown.is_err()))
        }
        Err(OutOfMemory) => ExitCode::from(8),
    }
}
