use crate::fails::compare_made;
use crate::fault::CaseFault;
use crate::heard::{bell_at, dropped_text, heard_text};
use crate::members::{check_keys, items_of};
use crate::play::Play;
use crate::playing::Played;
use crate::report::Report;
use crate::rows::lines_of;
use crate::texts::{line_of, text_of};
use desk_io::{OutOfMemory, Shelf};
use desk_net::MemoryLink;
use serde_json::Value;
use std::alloc::Global;

// Which lines are counted: those that equal a text, begin with it, or contain it.
#[derive(Clone, Copy)]
enum Counted {
    Lines,
    Prefix,
    Part,
}

fn is_line_feed(byte: &u8) -> bool {
    *byte == b'\n'
}

fn has_part(line: &[u8], part: &[u8]) -> bool {
    part.is_empty() || line.windows(part.len()).any(|window| window == part)
}

fn is_counted(counted: Counted, line: &[u8], text: &[u8]) -> bool {
    match counted {
        Counted::Lines => line == text,
        Counted::Prefix => line.starts_with(text),
        Counted::Part => has_part(line, text),
    }
}

fn count(counted: Counted, came: &[u8], text: &[u8]) -> usize {
    came.split(is_line_feed)
        .filter(|line| is_counted(counted, line, text))
        .count()
}

// How many bytes of a text are shown.
const SHOWN: usize = 1_000;

fn front(came: &[u8], most: usize) -> &[u8] {
    if came.len() <= most {
        came
    } else {
        &came[..most]
    }
}

// A text for a message, cut after `SHOWN` bytes.
fn shown_front(alloc: Global, came: &[u8]) -> Result<String, OutOfMemory> {
    let text = String::from_utf8_lossy(alloc, front(came, SHOWN))?;
    let end = if came.len() <= SHOWN { "" } else { ".." };
    Ok(format!(in alloc; "{text:?}{end}")?)
}

// A line for a message, or `nothing` if the text has ended before it.
fn shown(alloc: Global, line: Option<&[u8]>) -> Result<String, OutOfMemory> {
    match line {
        None => Ok(String::from_str(alloc, "nothing")?),
        Some(line) => {
            let text = String::from_utf8_lossy(alloc, line)?;
            Ok(format!(in alloc; "{text:?}")?)
        }
    }
}

// How many lines at the start of two texts are equal.
fn same_lines(one: &[u8], other: &[u8]) -> usize {
    one.split(is_line_feed)
        .zip(other.split(is_line_feed))
        .take_while(|(a, b)| a == b)
        .count()
}

fn line_at(text: &[u8], place: usize) -> Option<&[u8]> {
    text.split(is_line_feed).nth(place)
}

fn compare_lines(
    play: &Play<'_>,
    what: &str,
    wanted: Option<&[u8]>,
    came: Option<&[u8]>,
    report: &mut Report<'_>,
) -> Result<(), OutOfMemory> {
    let wanted = shown(play.alloc, wanted)?;
    let came = shown(play.alloc, came)?;
    report.differs(play, what, wanted.as_str(), came.as_str())
}

// Compares a whole text, and reports the first line that differs.
fn compare_text(
    play: &Play<'_>,
    what: &str,
    wanted: &[u8],
    came: &[u8],
    report: &mut Report<'_>,
) -> Result<(), OutOfMemory> {
    if wanted == came {
        return Ok(());
    }
    let place = same_lines(wanted, came);
    let (wanted, came) = (line_at(wanted, place), line_at(came, place));
    let line = place.saturating_add(1);
    let what = format!(in play.alloc; "{what}, line {line}")?;
    compare_lines(play, what.as_str(), wanted, came, report)
}

fn compare_first(
    play: &Play<'_>,
    what: &str,
    wanted: &Value,
    came: &[u8],
    report: &mut Report<'_>,
) -> Result<(), OutOfMemory> {
    let wanted = line_of(play.alloc, wanted)?;
    let came = line_at(came, 0).unwrap_or(&[]);
    compare_text(play, what, &wanted, came, report)
}

// An expected line, and how many of it.
fn pair_of<'a>(play: &Play<'_>, pair: &'a Value) -> Option<(&'a Value, u64)> {
    match pair.as_array()?.as_slice() {
        [line, count] => Some((line, play.number(count)?)),
        _ => None,
    }
}

fn shown_count(alloc: Global, count: u64, came: &[u8]) -> Result<String, OutOfMemory> {
    let came = shown_front(alloc, came)?;
    Ok(format!(in alloc; "{count} in {came}")?)
}

fn report_count(
    play: &Play<'_>,
    what: &str,
    line: &[u8],
    counts: (u64, u64),
    came: &[u8],
    report: &mut Report<'_>,
) -> Result<(), OutOfMemory> {
    let line = shown(play.alloc, Some(line))?;
    let what = format!(in play.alloc; "{what}, count of {line}")?;
    let wanted = counts.0.to_string(play.alloc)?;
    let came = shown_count(play.alloc, counts.1, came)?;
    report.differs(play, what.as_str(), wanted.as_str(), came.as_str())
}

fn compare_count(
    play: &Play<'_>,
    what: &str,
    counted: Counted,
    wanted: (&Value, u64),
    came: &[u8],
    report: &mut Report<'_>,
) -> Result<(), OutOfMemory> {
    let line = line_of(play.alloc, wanted.0)?;
    let count = count(counted, came, &line) as u64;
    if count == wanted.1 {
        return Ok(());
    }
    report_count(play, what, &line, (wanted.1, count), came, report)
}

fn compare_counts<'a>(
    play: &Play<'a>,
    what: &str,
    counted: Counted,
    pairs: &'a [Value],
    came: &[u8],
    report: &mut Report<'_>,
) -> Result<(), CaseFault<'a>> {
    for pair in pairs {
        match pair_of(play, pair) {
            Some(wanted) => compare_count(play, what, counted, wanted, came, report)?,
            None => return Err(CaseFault::Unread("lines")),
        }
    }
    Ok(())
}

fn compare_counted<'a>(
    play: &Play<'a>,
    what: &str,
    checks: &'a Value,
    counted: Counted,
    came: &[u8],
    report: &mut Report<'_>,
) -> Result<(), CaseFault<'a>> {
    let key = match counted {
        Counted::Lines => "lines",
        Counted::Prefix => "prefix",
        Counted::Part => "part",
    };
    match checks.get(key) {
        None => Ok(()),
        Some(pairs) => {
            let pairs = items_of(pairs, key)?;
            if pairs.is_empty() {
                return Err(CaseFault::Unread(key));
            }
            compare_counts(play, what, counted, pairs, came, report)
        }
    }
}

const CHECKS: [&str; 4] = ["first", "lines", "prefix", "part"];

fn has_check(wanted: &Value) -> bool {
    CHECKS.iter().any(|key| wanted.get(*key).is_some())
}

fn compare_checks<'a>(
    play: &Play<'a>,
    what: &str,
    checks: &'a Value,
    came: &[u8],
    report: &mut Report<'_>,
) -> Result<(), CaseFault<'a>> {
    check_keys(checks, &CHECKS, &[], "written")?;
    if let Some(first) = checks.get("first") {
        compare_first(play, what, first, came, report)?;
    }
    compare_counted(play, what, checks, Counted::Lines, came, report)?;
    compare_counted(play, what, checks, Counted::Prefix, came, report)?;
    compare_counted(play, what, checks, Counted::Part, came, report)
}

// Compares a text with the expected one, or with checks of its lines.
fn compare_with<'a, F: Shelf>(
    play: &Play<'a>,
    files: &mut F,
    what: &str,
    wanted: &'a Value,
    came: &[u8],
    report: &mut Report<'_>,
) -> Result<(), CaseFault<'a>> {
    if has_check(wanted) {
        return compare_checks(play, what, wanted, came, report);
    }
    let wanted = text_of(play, files, wanted)?;
    Ok(compare_text(play, what, &wanted, came, report)?)
}

// Compares a text, if the play expects one at this key.
fn compare_at<'a, F: Shelf>(
    play: &Play<'a>,
    files: &mut F,
    key: &str,
    came: &[u8],
    report: &mut Report<'_>,
) -> Result<(), CaseFault<'a>> {
    match play.part(key) {
        None => Ok(()),
        Some(wanted) => compare_with(play, files, key, wanted, came, report),
    }
}

// Compares a value, given as JSON.
fn compare_value<'a>(
    play: &Play<'a>,
    key: &str,
    came: &str,
    report: &mut Report<'_>,
) -> Result<(), OutOfMemory> {
    let Some(value) = play.part(key) else {
        return Ok(());
    };
    let wanted = match play.number(value) {
        Some(number) => number.to_string(play.alloc)?,
        None => value.to_string(play.alloc)?,
    };
    if wanted.as_str() == came {
        return Ok(());
    }
    report.differs(play, key, wanted.as_str(), came)
}

fn compare_port(
    play: &Play<'_>,
    port: Option<u16>,
    report: &mut Report<'_>,
) -> Result<(), OutOfMemory> {
    match port {
        None => compare_value(play, "port", "null", report),
        Some(port) => compare_number(play, "port", u64::from(port), report),
    }
}

fn compare_number(
    play: &Play<'_>,
    key: &str,
    came: u64,
    report: &mut Report<'_>,
) -> Result<(), OutOfMemory> {
    let came = came.to_string(play.alloc)?;
    compare_value(play, key, came.as_str(), report)
}

fn compare_values(
    play: &Play<'_>,
    played: &Played,
    report: &mut Report<'_>,
) -> Result<(), OutOfMemory> {
    compare_number(play, "status", u64::from(played.status), report)?;
    let board = if played.board { "true" } else { "false" };
    compare_value(play, "board", board, report)?;
    compare_port(play, played.door.port(), report)?;
    compare_number(play, "asked", played.clock.given(), report)
}

fn compare_link<'a, F: Shelf>(
    play: &Play<'a>,
    files: &mut F,
    i: usize,
    wanted: &'a Value,
    link: &MemoryLink,
    report: &mut Report<'_>,
) -> Result<(), CaseFault<'a>> {
    let number = i.saturating_add(1);
    let what = format!(in play.alloc; "links_written {number}")?;
    compare_with(play, files, what.as_str(), wanted, link.written(), report)
}

fn compare_each_link<'a, F: Shelf>(
    play: &Play<'a>,
    files: &mut F,
    wanted: &'a [Value],
    links: &[MemoryLink],
    report: &mut Report<'_>,
) -> Result<(), CaseFault<'a>> {
    for (i, (wanted, link)) in wanted.iter().zip(links).enumerate() {
        compare_link(play, files, i, wanted, link, report)?;
    }
    Ok(())
}

fn compare_number_of_links(
    play: &Play<'_>,
    wanted: usize,
    came: usize,
    report: &mut Report<'_>,
) -> Result<(), OutOfMemory> {
    if wanted == came {
        return Ok(());
    }
    let wanted = wanted.to_string(play.alloc)?;
    let came = came.to_string(play.alloc)?;
    report.differs(
        play,
        "number of links_written",
        wanted.as_str(),
        came.as_str(),
    )
}

fn compare_links<'a, F: Shelf>(
    play: &Play<'a>,
    files: &mut F,
    links: &[MemoryLink],
    report: &mut Report<'_>,
) -> Result<(), CaseFault<'a>> {
    let Some(wanted) = play.part("links_written") else {
        return Ok(());
    };
    let wanted = items_of(wanted, "links_written")?;
    compare_number_of_links(play, wanted.len(), links.len(), report)?;
    compare_each_link(play, files, wanted, links, report)
}

fn compare_bell<'a, F: Shelf>(
    play: &Play<'a>,
    files: &mut F,
    i: usize,
    wanted: &'a Value,
    played: &Played,
    report: &mut Report<'_>,
) -> Result<(), CaseFault<'a>> {
    let number = i.saturating_add(1);
    let what = format!(in play.alloc; "heard {number}")?;
    let heard = match bell_at(&played.bells, &played.dropped, i) {
        Some(bell) => heard_text(play.alloc, bell)?,
        None => Vec::new(play.alloc),
    };
    compare_with(play, files, what.as_str(), wanted, &heard, report)
}

// Compares the notices that each bell heard, if the play expects some.
fn compare_heard<'a, F: Shelf>(
    play: &Play<'a>,
    files: &mut F,
    played: &Played,
    report: &mut Report<'_>,
) -> Result<(), CaseFault<'a>> {
    let Some(wanted) = play.part("heard") else {
        return Ok(());
    };
    for (i, wanted) in items_of(wanted, "heard")?.iter().enumerate() {
        compare_bell(play, files, i, wanted, played, report)?;
    }
    Ok(())
}

// Compares which bells were dropped.
fn compare_dropped(
    play: &Play<'_>,
    played: &Played,
    report: &mut Report<'_>,
) -> Result<(), OutOfMemory> {
    let text = dropped_text(play.alloc, &played.dropped)?;
    let text = String::from_utf8_lossy(play.alloc, &text)?;
    compare_value(play, "dropped", text.as_str(), report)
}

// Compares what the gate counted.
fn compare_gate(
    play: &Play<'_>,
    played: &Played,
    report: &mut Report<'_>,
) -> Result<(), OutOfMemory> {
    let text = played.gate.text(play.alloc)?;
    compare_value(play, "gate", text.as_str(), report)
}

fn are_same(wanted: &Value) -> bool {
    wanted.get("same").and_then(Value::as_bool) == Some(true)
}

// Compares the rows that are left, if the play expects some.
fn compare_left<'a, F: Shelf>(
    play: &Play<'a>,
    files: &mut F,
    before: &[u8],
    played: &Played,
    report: &mut Report<'_>,
) -> Result<(), CaseFault<'a>> {
    let left = lines_of(play.alloc, played.keeper.rows())?;
    match play.part("left") {
        Some(wanted) if are_same(wanted) => {
            Ok(compare_text(play, "left", before, &left, report)?)
        }
        _ => compare_at(play, files, "left", &left, report),
    }
}

// The keys of expected results.
const WANTED: [&str; 10] = [
    "status",
    "written",
    "left",
    "links_written",
    "board",
    "port",
    "asked",
    "heard",
    "dropped",
    "gate",
];

fn compares(play: &Play<'_>) -> bool {
    WANTED.iter().any(|key| play.part(key).is_some())
}

/// Compares the results of a play with those that it expects. `before` are the rows from before the play, as lines.
pub fn compare<'a, F: Shelf>(
    play: &Play<'a>,
    files: &mut F,
    before: &[u8],
    played: &Played,
    report: &mut Report<'_>,
) -> Result<(), CaseFault<'a>> {
    if !compares(play) {
        report.says(play, "nothing is compared")?;
    }
    compare_made(play, played, report)?;
    compare_values(play, played, report)?;
    compare_at(play, files, "written", played.sink.written(), report)?;
    compare_left(play, files, before, played, report)?;
    compare_links(play, files, played.door.ended(), report)?;
    compare_dropped(play, played, report)?;
    compare_gate(play, played, report)?;
    compare_heard(play, files, played, report)
}
