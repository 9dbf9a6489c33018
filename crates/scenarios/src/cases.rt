use crate::command::words_of;
use crate::comparing::compare;
use crate::fault::CaseFault;
use crate::members::{check_keys, items_of};
use crate::objects::{bells_of, clock_of, door_of, keeper_of, sink_of};
use crate::play::Play;
use crate::playing::{Command, Devices, Outside, Played, play};
use crate::report::Report;
use crate::rows::{lines_of, rows_of};
use crate::shelf::shelf_of;
use crate::texts::text_of;
use desk_io::{OutOfMemory, Row, Shelf, copied_items};
use serde_json::Value;
use std::sync::Wait;
use std::thread::Threads;

// The keys that are allowed in a case, in each of its steps, and in `common`.
const PARTS: [&str; 18] = [
    "tables",
    "sources",
    "words",
    "clock",
    "links",
    "bells",
    "fail",
    "unmade",
    "status",
    "written",
    "left",
    "links_written",
    "board",
    "port",
    "asked",
    "heard",
    "dropped",
    "gate",
];

fn command_of<'a, F: Shelf>(play: &Play<'a>, files: &mut F) -> Result<Command, CaseFault<'a>> {
    let words = words_of(play)?;
    let shelf = shelf_of(play, files)?;
    let sink = sink_of(play)?;
    Ok(Command { words, shelf, sink })
}

fn devices_of<'a, F: Shelf>(
    play: &Play<'a>,
    files: &mut F,
    rows: Vec<Row>,
) -> Result<Devices, CaseFault<'a>> {
    let keeper = keeper_of(play, rows)?;
    let clock = clock_of(play)?;
    let door = door_of(play, files)?;
    let bells = bells_of(play)?;
    Ok(Devices {
        keeper,
        clock,
        door,
        bells,
    })
}

fn outside_of<'a, F: Shelf>(
    play: &Play<'a>,
    files: &mut F,
    rows: Vec<Row>,
) -> Result<Outside, CaseFault<'a>> {
    let devices = devices_of(play, files, rows)?;
    let command = command_of(play, files)?;
    Ok(Outside { command, devices })
}

// Compares the results of a play, and returns the rows that are left.
fn left_of<'a, F: Shelf>(
    place: &Play<'a>,
    files: &mut F,
    before: &[u8],
    played: &Played,
    report: &mut Report<'_>,
) -> Result<Vec<Row>, CaseFault<'a>> {
    compare(place, files, before, played, report)?;
    Ok(copied_items(played.keeper.rows(), place.alloc)?)
}

// Plays a case or a step over rows, and returns the rows that are left.
fn play_over<'a, R: Threads + Wait + Sync, F: Shelf>(
    rt: &R,
    place: &Play<'a>,
    files: &mut F,
    rows: Vec<Row>,
    report: &mut Report<'_>,
) -> Result<Vec<Row>, CaseFault<'a>> {
    let before = lines_of(place.alloc, &rows)?;
    let outside = outside_of(place, files, rows)?;
    let played = play(rt, place.alloc, outside);
    left_of(place, files, &before, &played, report)
}

// The rows that the keeper holds at first.
fn rows_at<'a, F: Shelf>(place: &Play<'a>, files: &mut F) -> Result<Vec<Row>, CaseFault<'a>> {
    match place.of_case("rows") {
        None => Ok(Vec::new(place.alloc)),
        Some(rows) => {
            let lines = text_of(place, files, rows)?;
            rows_of(place.alloc, &lines)
        }
    }
}

fn play_steps<'a, R: Threads + Wait + Sync, F: Shelf>(
    rt: &R,
    place: &Play<'a>,
    files: &mut F,
    steps: &'a [Value],
    report: &mut Report<'_>,
) -> Result<(), CaseFault<'a>> {
    let mut rows = rows_at(place, files)?;
    for (i, step) in steps.iter().enumerate() {
        check_keys(step, &PARTS, &["name"], "steps")?;
        let place = place.at_step(step, i);
        rows = play_over(rt, &place, files, rows, report)?;
    }
    Ok(())
}

fn play_once<'a, R: Threads + Wait + Sync, F: Shelf>(
    rt: &R,
    place: &Play<'a>,
    files: &mut F,
    report: &mut Report<'_>,
) -> Result<(), CaseFault<'a>> {
    match place.case.get("steps") {
        Some(steps) => match items_of(steps, "steps")? {
            [] => Err(CaseFault::Unread("steps")),
            steps => play_steps(rt, place, files, steps, report),
        },
        None => {
            let rows = rows_at(place, files)?;
            let _ = play_over(rt, place, files, rows, report)?;
            Ok(())
        }
    }
}

fn play_range<'a, R: Threads + Wait + Sync, F: Shelf>(
    rt: &R,
    place: &Play<'a>,
    files: &mut F,
    range: (u64, u64),
    report: &mut Report<'_>,
) -> Result<(), CaseFault<'a>> {
    for number in range.0..=range.1 {
        let place = place.for_each(number);
        play_once(rt, &place, files, report)?;
    }
    Ok(())
}

fn range_of<'a>(each: &'a Value) -> Result<(u64, u64), CaseFault<'a>> {
    check_keys(each, &["from", "to"], &[], "each")?;
    match (
        each.get("from").and_then(Value::as_u64),
        each.get("to").and_then(Value::as_u64),
    ) {
        (Some(from), Some(to)) if from <= to => Ok((from, to)),
        _ => Err(CaseFault::Unread("each")),
    }
}

fn check_common<'a>(place: &Play<'a>) -> Result<(), CaseFault<'a>> {
    match place.common {
        None => Ok(()),
        Some(common) => check_keys(common, &PARTS, &["rows"], "common"),
    }
}

fn play_all<'a, R: Threads + Wait + Sync, F: Shelf>(
    rt: &R,
    place: &Play<'a>,
    files: &mut F,
    report: &mut Report<'_>,
) -> Result<(), CaseFault<'a>> {
    check_keys(
        place.case,
        &PARTS,
        &["name", "rows", "steps", "each"],
        "cases",
    )?;
    check_common(place)?;
    if place.case.get("name").and_then(Value::as_str).is_none() {
        return Err(CaseFault::Unread("name"));
    }
    match place.case.get("each") {
        None => play_once(rt, place, files, report),
        Some(each) => play_range(rt, place, files, range_of(each)?, report),
    }
}

/// Plays a case. Returns whether nothing differs.
pub fn passes<R: Threads + Wait + Sync, F: Shelf>(
    rt: &R,
    place: &Play<'_>,
    files: &mut F,
    report: &mut Report<'_>,
) -> Result<bool, OutOfMemory> {
    let before = report.count();
    if let Err(fault) = play_all(rt, place, files, report) {
        report.unplayed(place, fault)?;
    }
    Ok(report.count() == before)
}
