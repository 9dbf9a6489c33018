ghost use Rattle.std.specs.Prelude.{IsTrue};

use crate::meeting::Meeting;
use crate::memory_desk::{listed_board, memory_desk};
use alerts::{Bell, MemoryBell};
use desk::{Desk, Gate, Raced, race};
use desk_io::{OutOfMemory, Text};
use keeper::{Keeper, MemoryKeeper};
use ops_tables::Tables;
use small_airline::{script_of, small_tables};
use std::alloc::Global;
use std::sync::Wait;
use std::test::Fail;
use std::thread::Threads;
use table_files::TableFault;

const SCRIPT: &str = r#"F1 1 17:00 "do":"admit","text":"METAR KJFK 121651Z 10SM CLR RMK 1"
"#;

// Sixteen scripts of the same line.
fn scripts(alloc: Global) -> Result<Vec<Text>, OutOfMemory> {
    let mut scripts = Vec::new(alloc);
    for _ in 0..16 {
        scripts.push(Text::from_vec(script_of(alloc, SCRIPT, "")?))?;
    }
    Ok(scripts)
}

fn text_of(raced: Raced<MemoryKeeper, MemoryBell>) -> Result<Text, OutOfMemory> {
    let Raced { desk: _, text } = raced;
    text
}

// Drops the contract of `race` here, over type parameters, so that only this proof pays for it.
fn raced_by<K: Keeper + Send, B: Bell + Send, G: Gate + Sync, R: Threads + Wait + Sync>(
    rt: &R,
    alloc: Global,
    desk: Desk<K, B>,
    scripts: &[Text],
    gate: &G,
) -> Raced<K, B>
    requires { IsTrue desk.board.listed }
{
    race(rt, alloc, desk, scripts, gate)
}

// The text of a race over the tables.
#[tactic(auto, using(keeper::proofs::Crossing::MemoryKeeper_send, alerts::proofs::Crossing::MemoryBell_send))]
fn race_over<R: Threads + Wait + Sync>(
    rt: &R,
    alloc: Global,
    tables: Tables,
    scripts: &[Text],
    meeting: &Meeting,
) -> Result<Text, OutOfMemory> {
    let desk = memory_desk(alloc, listed_board(alloc, tables));
    text_of(raced_by(rt, alloc, desk, scripts, meeting))
}

// The text of the race of the sixteen.
fn raced<R: Threads + Wait + Sync>(
    rt: &R,
    alloc: Global,
    meeting: &Meeting,
) -> Result<Text, TableFault> {
    let scripts = scripts(alloc)?;
    let tables = small_tables(alloc)?;
    Ok(race_over(rt, alloc, tables, &scripts, meeting)?)
}

// Sixteen lanes are all there before the first line is answered. Their one call is accepted once, after one tick.
#[test]
fn sixteen_lanes_gather(rt: HostRuntime) -> Result<(), Fail> {
    let meeting = Meeting::new(16, 0);
    let text = raced(&rt, rt.alloc(), &meeting)?;
    assert!(rt; !meeting.gave_up(), "all lanes came");
    assert!(rt;
        text.bytes().starts_with(b"HISTORY 2\n".as_slice()),
        "a tick and a call"
    );
    Ok(())
}
