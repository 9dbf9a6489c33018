use alerts::{Bell, MemoryBell, Notice, NoticeKind, Notices};
use desk_io::{Listed, OutOfMemory, Text};
use ops_tables::Tables;
use relief::{Handover, Roster, Seated};
use small_airline::holds;
use std::alloc::Global;
use std::test::Fail;

fn offer(alloc: Global) -> Result<Handover, OutOfMemory> {
    Ok(Handover::Offer {
        actor: Text::of(alloc, b"D1")?,
        desk: Text::of(alloc, b"D1")?,
        to: Text::of(alloc, b"D2")?,
    })
}

fn acceptance(alloc: Global) -> Result<Handover, OutOfMemory> {
    Ok(Handover::Accept {
        actor: Text::of(alloc, b"D2")?,
        desk: Text::of(alloc, b"D1")?,
    })
}

// The roster after D2 has taken over D1's desk. The first acceptance is refused, since nothing is offered yet.
fn taken_over(alloc: Global, tables: &Tables) -> Result<Roster, OutOfMemory> {
    let handovers = [acceptance(alloc)?, offer(alloc)?, acceptance(alloc)?];
    Roster::replay(alloc, tables, &handovers)
}

fn is_made_again(alloc: Global, tables: &Tables) -> Result<bool, OutOfMemory> {
    let roster = taken_over(alloc, tables)?;
    Ok(roster.sitter(b"D1") == Some(b"D2"))
}

// An alert of a release that D1's desk holds.
fn notices(alloc: Global) -> Result<Notices, OutOfMemory> {
    let mut notices = Listed::new(alloc);
    notices.push(Notice {
        desk: Text::of(alloc, b"D1")?,
        release: 1,
        version: 1,
        kind: NoticeKind::Opened,
    })?;
    Ok(notices)
}

fn bell(alloc: Global, person: &[u8]) -> Result<Vec<MemoryBell>, OutOfMemory> {
    let mut bells = Vec::new(alloc);
    bells.push(MemoryBell::new(alloc, Text::of(alloc, person)?, Vec::new(alloc)))?;
    Ok(bells)
}

fn ring<B: Bell + Drop>(
    alloc: Global,
    tables: &Tables,
    seated: &mut Seated<B>,
) -> Result<(), OutOfMemory> {
    let roster = taken_over(alloc, tables)?;
    let notices = notices(alloc)?;
    seated.ring_seated(&roster, &notices)
}

// How many notices the bell of a person hears.
fn heard_by(alloc: Global, tables: &Tables, person: &[u8]) -> Result<usize, OutOfMemory> {
    let mut seated = Seated::new(alloc, bell(alloc, person)?);
    ring(alloc, tables, &mut seated)?;
    let (bells, _) = seated.finish();
    Ok(
        bells
            .as_slice()
            .first()
            .map_or(0, |bell| bell.heard().len()),
    )
}

fn is_heard(alloc: Global, tables: &Tables) -> Result<bool, OutOfMemory> {
    Ok(heard_by(alloc, tables, b"D2")? == 1 && heard_by(alloc, tables, b"D1")? == 0)
}

#[test]
fn a_roster_is_made_again_from_its_handovers(rt: HostRuntime) -> Result<(), Fail> {
    assert!(rt; holds(rt.alloc(), is_made_again)?);
    Ok(())
}

#[test]
fn the_bell_of_who_sits_at_the_desk_rings(rt: HostRuntime) -> Result<(), Fail> {
    assert!(rt; holds(rt.alloc(), is_heard)?);
    Ok(())
}
