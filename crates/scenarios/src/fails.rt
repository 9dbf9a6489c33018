use crate::fault::CaseFault;
use crate::heard::bell_at;
use crate::members::{check_keys, items_of};
use crate::play::Play;
use crate::playing::Played;
use crate::report::Report;
use alerts::{Bell, MemoryBell};
use desk_io::{OutOfMemory, Sink};
use desk_net::{Clock, Link, MemoryLink};
use keeper::Keeper;
use serde_json::Value;

const OBJECTS: [&str; 7] = ["shelf", "sink", "keeper", "clock", "door", "links", "bells"];

// The keys of the calls that must fail, and of those that would fail but must not be made.
const FAIL: &str = "fail";

const UNMADE: &str = "unmade";

fn is_load(value: &Value) -> bool {
    value.as_str() == Some("load")
}

// The list of an object at one of these keys.
fn listed<'a>(
    play: &Play<'a>,
    key: &'static str,
    object: &str,
) -> Result<&'a [Value], CaseFault<'a>> {
    let Some(objects) = play.part(key) else {
        return Ok(&[]);
    };
    check_keys(objects, &OBJECTS, &[], key)?;
    match objects.get(object) {
        None => Ok(&[]),
        Some(listed) => items_of(listed, key),
    }
}

// The list of one link or bell at one of these keys.
fn listed_of<'a>(
    play: &Play<'a>,
    key: &'static str,
    objects: &str,
    place: usize,
) -> Result<&'a [Value], CaseFault<'a>> {
    match listed(play, key, objects)?.get(place) {
        None => Ok(&[]),
        Some(listed) => items_of(listed, key),
    }
}

// Adds the numbers of a list, in which `load` is allowed if `with_load` is true.
fn push_numbers(
    play: &Play<'_>,
    listed: &[Value],
    with_load: bool,
    numbers: &mut Vec<u64>,
) -> Result<(), CaseFault<'static>> {
    for value in listed {
        match play.number(value) {
            Some(number) => numbers.push(number)?,
            None if with_load && is_load(value) => {}
            None => return Err(CaseFault::Unread(FAIL)),
        }
    }
    Ok(())
}

/// The numbers of an object's calls that fail.
pub fn failing<'a>(play: &Play<'a>, object: &str) -> Result<Vec<u64>, CaseFault<'a>> {
    let with_load = object == "keeper";
    let mut numbers = Vec::new(play.alloc);
    push_numbers(play, listed(play, FAIL, object)?, with_load, &mut numbers)?;
    push_numbers(play, listed(play, UNMADE, object)?, with_load, &mut numbers)?;
    Ok(numbers)
}

/// The numbers of the calls of one link or bell that fail.
pub fn failing_of<'a>(
    play: &Play<'a>,
    objects: &str,
    place: usize,
) -> Result<Vec<u64>, CaseFault<'a>> {
    let mut numbers = Vec::new(play.alloc);
    push_numbers(
        play,
        listed_of(play, FAIL, objects, place)?,
        false,
        &mut numbers,
    )?;
    push_numbers(
        play,
        listed_of(play, UNMADE, objects, place)?,
        false,
        &mut numbers,
    )?;
    Ok(numbers)
}

/// Whether the rows can be loaded.
pub fn loads<'a>(play: &Play<'a>) -> Result<bool, CaseFault<'a>> {
    let fail = listed(play, FAIL, "keeper")?;
    let unmade = listed(play, UNMADE, "keeper")?;
    Ok(!fail.iter().any(is_load) && !unmade.iter().any(is_load))
}

// How many of the numbers are those of calls that were made.
fn reached(numbers: &[u64], calls: u64) -> u64 {
    numbers.iter().filter(|number| **number < calls).count() as u64
}

// Compares how many calls of an object must fail with how many did.
fn compare_fails(
    play: &Play<'_>,
    object: &str,
    wanted: usize,
    came: u64,
    report: &mut Report<'_>,
) -> Result<(), OutOfMemory> {
    if wanted as u64 == came {
        return Ok(());
    }
    let what = format!(in play.alloc; "calls of {object} that fail")?;
    let wanted = wanted.to_string(play.alloc)?;
    let came = came.to_string(play.alloc)?;
    report.differs(play, what.as_str(), wanted.as_str(), came.as_str())
}

fn compare_faults<'a>(
    play: &Play<'a>,
    object: &str,
    faults: u64,
    report: &mut Report<'_>,
) -> Result<(), CaseFault<'a>> {
    let wanted = listed(play, FAIL, object)?.len();
    Ok(compare_fails(play, object, wanted, faults, report)?)
}

// As `compare_faults`, for objects that have other faults too: a source is missing, or no link is left.
fn compare_calls<'a>(
    play: &Play<'a>,
    object: &str,
    calls: u64,
    report: &mut Report<'_>,
) -> Result<(), CaseFault<'a>> {
    let numbers = failing(play, object)?;
    compare_faults(play, object, reached(&numbers, calls), report)
}

fn faults_of(link: Option<&MemoryLink>) -> u64 {
    match link {
        Some(link) => link.faults(),
        None => 0,
    }
}

fn compare_links<'a>(
    play: &Play<'a>,
    links: &[MemoryLink],
    report: &mut Report<'_>,
) -> Result<(), CaseFault<'a>> {
    let count = links.len().max(listed(play, FAIL, "links")?.len());
    for place in 0..count {
        let wanted = listed_of(play, FAIL, "links", place)?.len();
        let number = place.saturating_add(1);
        let link = format!(in play.alloc; "link {number}")?;
        compare_fails(
            play,
            link.as_str(),
            wanted,
            faults_of(links.get(place)),
            report,
        )?;
    }
    Ok(())
}

fn faults_of_bell(bell: Option<&MemoryBell>) -> u64 {
    match bell {
        Some(bell) => bell.faults(),
        None => 0,
    }
}

fn compare_bells<'a>(
    play: &Play<'a>,
    played: &Played,
    report: &mut Report<'_>,
) -> Result<(), CaseFault<'a>> {
    let came = played.bells.len().saturating_add(played.dropped.len());
    let count = came.max(listed(play, FAIL, "bells")?.len());
    for place in 0..count {
        let wanted = listed_of(play, FAIL, "bells", place)?.len();
        let number = place.saturating_add(1);
        let name = format!(in play.alloc; "bell {number}")?;
        let bell = bell_at(&played.bells, &played.dropped, place);
        compare_fails(play, name.as_str(), wanted, faults_of_bell(bell), report)?;
    }
    Ok(())
}

/// Reports each call that must fail and wasn't made, and each that must not be made and was.
pub fn compare_made<'a>(
    play: &Play<'a>,
    played: &Played,
    report: &mut Report<'_>,
) -> Result<(), CaseFault<'a>> {
    compare_calls(play, "shelf", played.shelf.calls(), report)?;
    compare_faults(play, "sink", played.sink.faults(), report)?;
    compare_faults(play, "keeper", played.keeper.faults(), report)?;
    compare_faults(play, "clock", played.clock.faults(), report)?;
    compare_calls(play, "door", played.door.calls(), report)?;
    compare_links(play, played.door.ended(), report)?;
    compare_bells(play, played, report)
}
