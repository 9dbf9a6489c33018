ghost use Rattle.std.specs.Prelude.{◌<◌, IfOk, IfSome};
ghost use Rattle.std.specs.List.{All};
ghost use Rattle.desk_time.specs.Limits.{IsMoment};

use crate::fails::{failing, failing_of, loads};
use crate::fault::CaseFault;
use crate::members::{check_keys, items_of};
use crate::outside::{CaseClock, CaseDoor, CaseKeeper};
use crate::play::Play;
use crate::texts::text_of;
use alerts::MemoryBell;
use desk_io::{MemorySink, OutOfMemory, Row, Shelf, Text};
use desk_net::{MemoryClock, MemoryDoor, MemoryLink};
use desk_time::{FIRST, Minute, read_minute};
use keeper::{MemoryKeeper, is_rising};
use serde_json::Value;
use std::alloc::Global;
use std::sync::Arc;
use std::sync::atomic::AtomicBool;

// How many bytes a link returns at once, unless the case states it.
const CUT: u64 = 4_096;

/// The sink of a play.
pub fn sink_of<'a>(play: &Play<'a>) -> Result<MemorySink, CaseFault<'a>> {
    Ok(MemorySink::new(play.alloc, failing(play, "sink")?))
}

/// The keeper of a play over rows.
pub fn keeper_of<'a>(play: &Play<'a>, rows: Vec<Row>) -> Result<CaseKeeper, CaseFault<'a>> {
    let loads = loads(play)?;
    let fail = failing(play, "keeper")?;
    if is_rising(&rows) {
        Ok(CaseKeeper::new(MemoryKeeper::new(rows, fail), loads))
    } else {
        Err(CaseFault::Unread("rows"))
    }
}

fn moment_of(value: &Value) -> Option<Minute>
    ensures { IfSome result IsMoment }
{
    read_minute(value.as_str()?.as_bytes())
}

fn moments_in(alloc: Global, listed: &[Value]) -> Result<Vec<Minute>, CaseFault<'static>>
    ensures { IfOk result (λ moments. All IsMoment moments.items) }
{
    let mut moments = Vec::new(alloc);
    for value in listed {
        match moment_of(value) {
            Some(moment) => moments.push(moment)?,
            None => return Err(CaseFault::Unread("clock")),
        }
    }
    Ok(moments)
}

fn moments_of<'a>(play: &Play<'a>) -> Result<Vec<Minute>, CaseFault<'a>>
    ensures { IfOk result (λ moments. All IsMoment moments.items) }
{
    match play.part("clock") {
        None => Ok(vec![in play.alloc; FIRST]?),
        Some(listed) => moments_in(play.alloc, items_of(listed, "clock")?),
    }
}

/// The clock of a play.
pub fn clock_of<'a>(play: &Play<'a>) -> Result<CaseClock, CaseFault<'a>> {
    let fail = failing(play, "clock")?;
    let moments = moments_of(play)?;
    if moments.is_empty() {
        Err(CaseFault::Unread("clock"))
    } else {
        Ok(CaseClock::new(MemoryClock::new(moments, fail)))
    }
}

fn cut_of<'a>(play: &Play<'a>, link: &'a Value) -> Result<usize, CaseFault<'a>>
    ensures { IfOk result (λ cut. 0 < cut) }
{
    let cut = match link.get("cut") {
        None => Some(CUT),
        Some(value) => play.number(value),
    };
    match cut {
        Some(cut) if cut > 0 => Ok(cut as usize),
        _ => Err(CaseFault::Unread("cut")),
    }
}

fn link_of<'a, F: Shelf>(
    play: &Play<'a>,
    files: &mut F,
    link: &'a Value,
    fail: Vec<u64>,
) -> Result<MemoryLink, CaseFault<'a>> {
    check_keys(link, &["input", "cut", "after"], &[], "links")?;
    let Some(input) = link.get("input") else {
        return Err(CaseFault::Unread("input"));
    };
    let cut = cut_of(play, link)?;
    let input = text_of(play, files, input)?;
    Ok(MemoryLink::new(play.alloc, input, cut, fail))
}

fn links_in<'a, F: Shelf>(
    play: &Play<'a>,
    files: &mut F,
    listed: &'a [Value],
) -> Result<Vec<MemoryLink>, CaseFault<'a>> {
    let mut links = Vec::new(play.alloc);
    for (i, link) in listed.iter().enumerate() {
        let fail = failing_of(play, "links", i)?;
        links.push(link_of(play, files, link, fail)?)?;
    }
    Ok(links)
}

// The place of the link that must end before anything is read from this one. By default it is the link before.
fn after_of<'a>(
    play: &Play<'a>,
    link: &'a Value,
    place: usize,
) -> Result<Option<usize>, CaseFault<'a>> {
    match link.get("after") {
        None => Ok(place.checked_sub(1)),
        Some(value) => match play.number(value) {
            Some(number) => Ok((number as usize).checked_sub(1)),
            None => Err(CaseFault::Unread("after")),
        },
    }
}

fn order_of<'a>(play: &Play<'a>, listed: &'a [Value]) -> Result<Vec<Option<usize>>, CaseFault<'a>> {
    let mut order = Vec::new(play.alloc);
    for (i, link) in listed.iter().enumerate() {
        order.push(after_of(play, link, i)?)?;
    }
    Ok(order)
}

// Flags for `count` links, none of which has ended.
fn unended(alloc: Global, count: usize) -> Result<Arc<Vec<AtomicBool>, Global>, OutOfMemory> {
    let mut ended = Vec::new(alloc);
    for _ in 0..count {
        ended.push(AtomicBool::new(false))?;
    }
    Ok(Arc::new(alloc, ended)?)
}

/// The door of a play.
pub fn door_of<'a, F: Shelf>(play: &Play<'a>, files: &mut F) -> Result<CaseDoor, CaseFault<'a>> {
    let listed = match play.part("links") {
        None => &[],
        Some(listed) => items_of(listed, "links")?,
    };
    let fail = failing(play, "door")?;
    let order = order_of(play, listed)?;
    let ended = unended(play.alloc, listed.len())?;
    let links = links_in(play, files, listed)?;
    let door = MemoryDoor::new(play.alloc, links, fail);
    Ok(CaseDoor::new(door, order, ended))
}

fn bell_of<'a>(
    play: &Play<'a>,
    desk: &'a Value,
    place: usize,
) -> Result<MemoryBell, CaseFault<'a>> {
    let Some(desk) = desk.as_str() else {
        return Err(CaseFault::Unread("bells"));
    };
    let fail = failing_of(play, "bells", place)?;
    let desk = Text::of(play.alloc, desk.as_bytes())?;
    Ok(MemoryBell::new(play.alloc, desk, fail))
}

/// The bells of a play.
pub fn bells_of<'a>(play: &Play<'a>) -> Result<Vec<MemoryBell>, CaseFault<'a>> {
    let listed = match play.part("bells") {
        None => &[],
        Some(listed) => items_of(listed, "bells")?,
    };
    let mut bells = Vec::new(play.alloc);
    for (i, desk) in listed.iter().enumerate() {
        bells.push(bell_of(play, desk, i)?)?;
    }
    Ok(bells)
}
