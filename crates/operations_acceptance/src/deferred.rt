ghost use Rattle.std.specs.Prelude.{◌≡◌, ◌<◌, All, IfOk, IsTrue};

use deferrals::{DEFERRAL_LIMIT, Deferral, Deferrals, Limits, limits_of};
use desk_io::{Copied, LineFeeds, OutOfMemory, Text, push_all, runs_between};
use desk_time::Minute;
use ops_tables::Tables;
use small_airline::holds_with;
use std::alloc::Global;
use std::test::Fail;

// 2025-03-10 14:20.
const FOUND: Minute = 29_026_940;

// A list of an item of each category, three of which limit the aircraft.
const ITEMS: &[u8] =
    b"A320,34-1,B,0,,300,1,0\nA320,22-1,C,0,ILS,40,1,0\nA320,34-2,D,0,GPS,0,1,0\nA320,34-3,A,7,,0,1,0\n";

fn is_above(list: &[Deferral], id: u64) -> bool
    ensures { IsTrue result → All (λ held. held.id < id) list.now }
{
    list.iter().all(|held| held.id < id)
}

fn deferral(alloc: Global, id: u64, tail: &[u8], item: &[u8]) -> Result<Deferral, OutOfMemory>
    ensures { IfOk result (λ deferral. deferral.id ≡ id) }
{
    let deferral = Deferral {
        id,
        tail: Text::of(alloc, tail)?,
        item: Text::of(alloc, item)?,
        found: FOUND,
    };
    deferral.copy(alloc)
}

// Adds an item under the next number, if there is room in the list.
fn add(alloc: Global, list: &mut Deferrals, tail: &[u8], item: &[u8]) -> Result<(), OutOfMemory> {
    let count = list.as_slice().len();
    let id = count as u64 + 1;
    let deferral = deferral(alloc, id, tail, item)?;
    if count < DEFERRAL_LIMIT && is_above(list.as_slice(), id) {
        list.reserve()?;
        list.add(deferral);
    }
    Ok(())
}

// Deferrals under the numbers 1, 2 and so on: a tail, a blank and an item in each line.
fn deferred(alloc: Global, lines: &[u8]) -> Result<Deferrals, OutOfMemory> {
    let mut list = Deferrals::new(alloc);
    for line in &runs_between::<LineFeeds>(alloc, lines)? {
        if let [tail @ .., b' ', a, b, c, d] = line.bytes() {
            add(alloc, &mut list, tail, &[*a, *b, *c, *d])?;
        }
    }
    Ok(list)
}

// The extra fuel, and each lost capability after a blank.
fn shown(alloc: Global, limits: &Limits) -> Result<Text, OutOfMemory> {
    let fuel = limits.extra_fuel.to_string(alloc)?;
    let mut text = Vec::from_slice(alloc, fuel.as_bytes())?;
    for name in limits.lost.as_slice() {
        push_all(&mut text, &[b" ", name.bytes()])?;
    }
    Ok(Text::from_vec(text))
}

// The limits that an aircraft's open items set.
fn limits_text(
    alloc: Global,
    tables: &Tables,
    lines: &[u8],
    tail: &[u8],
) -> Result<Text, OutOfMemory> {
    let list = deferred(alloc, lines)?;
    let limits = limits_of(alloc, &list, tail, tables)?;
    shown(alloc, &limits)
}

const LINES: &[u8] =
    b"N801DK 34-2\nN801DK 34-1\nN901DK 34-1\nN801DK 22-1\nN801DK 22-1\nN801DK 99-9\n";

fn are_limits(alloc: Global, tables: &Tables) -> Result<bool, OutOfMemory> {
    for (tail, text) in [
        (b"N801DK".as_slice(), b"380 GPS ILS".as_slice()),
        (b"N901DK", b"0"),
        (b"N999DK", b"0"),
    ] {
        if limits_text(alloc, tables, LINES, tail)?.bytes() != text {
            return Ok(false);
        }
    }
    Ok(true)
}

#[test]
fn open_deferrals_limit_their_aircraft(rt: HostRuntime) -> Result<(), Fail> {
    assert!(rt; holds_with(rt.alloc(), "mel.csv", ITEMS, are_limits)?);
    Ok(())
}
