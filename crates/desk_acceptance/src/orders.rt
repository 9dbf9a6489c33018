ghost use Rattle.std.specs.Prelude.{IfOk};
ghost use Rattle.std.specs.List.{AllByRecursion};
ghost use Rattle.desk.specs.Merge.{IsFresh};

use crate::counting::Counting;
use crate::meeting::Meeting;
use crate::memory_desk::{listed_board, memory_desk};
use alerts::{Bell, MemoryBell};
use desk::{Board, Desk, Finished, Gate, Lane, run_lanes};
use desk_io::OutOfMemory;
use desk_state::What;
use keeper::{Keeper, MemoryKeeper};
use ops_tables::Tables;
use small_airline::{script_of, small_tables};
use std::alloc::Global;
use std::sync::Wait;
use std::test::Fail;
use std::thread::Threads;
use table_files::TableFault;

const ONE: &str = r#"F1 1 17:00 "do":"admit","text":"METAR KJFK 121651Z 10SM CLR RMK 1"
F1 2 17:00 "do":"admit","text":"METAR KJFK 121651Z 10SM CLR RMK 2"
F1 3 17:00 "do":"admit","text":"METAR KJFK 121651Z 10SM CLR RMK 3"
"#;

const TWO: &str = r#"F1 4 17:00 "do":"admit","text":"METAR KJFK 121651Z 10SM CLR RMK 4"
F1 5 17:00 "do":"admit","text":"METAR KJFK 121651Z 10SM CLR RMK 5"
F1 6 17:00 "do":"admit","text":"METAR KJFK 121651Z 10SM CLR RMK 6"
"#;

// The second line of each changes nothing: a view, a refusal, a call that came before.
const VIEW: &str = r#"F1 1 17:00 "do":"admit","text":"METAR KJFK 121651Z 10SM CLR RMK 1"
D1 1 17:00 "do":"board"
"#;

const REFUSAL: &str = r#"F1 1 17:00 "do":"admit","text":"METAR KJFK 121651Z 10SM CLR RMK 1"
C7 1 17:00 "do":"admit","text":"METAR KJFK 121651Z 10SM CLR RMK 2"
"#;

const REPEAT: &str = r#"F1 1 17:00 "do":"admit","text":"METAR KJFK 121651Z 10SM CLR RMK 1"
F1 1 17:00 "do":"admit","text":"METAR KJFK 121651Z 10SM CLR RMK 1"
"#;

fn lane_of(alloc: Global, lines: &str) -> Result<Lane, OutOfMemory>
    ensures { IfOk result IsFresh }
{
    let script = script_of(alloc, lines, "")?;
    let lane = Lane::of(alloc, &script)?;
    Ok(lane)
}

fn two_lanes(alloc: Global, one: &str) -> Result<Vec<Lane>, OutOfMemory>
    ensures { IfOk result (λ v. AllByRecursion IsFresh v.items) }
{
    let one = lane_of(alloc, one)?;
    let two = lane_of(alloc, TWO)?;
    let mut lanes = Vec::new(alloc);
    lanes.push(one)?;
    lanes.push(two)?;
    Ok(lanes)
}

// What came of lanes: the numbers of the calls in the history, and 0 for a tick, and the position of the first lane's
// second line.
#[derive(Drop)]
struct Came {
    numbers: Vec<u64>,
    second: Option<u64>,
}

fn numbers_in(alloc: Global, board: &Board) -> Result<Vec<u64>, OutOfMemory> {
    let mut numbers = Vec::new(alloc);
    for i in 0..board.entries() {
        if board.is_listed() {
            match &board.entry(i).what {
                What::Tick { .. } => numbers.push(0)?,
                What::Asked { call, .. } => numbers.push(call.number)?,
            }
        }
    }
    Ok(numbers)
}

fn second_in(lanes: &[Lane]) -> Option<u64> {
    Some(lanes.first()?.outcomes().get(1)?.position)
}

fn came_of(
    alloc: Global,
    finished: Finished<MemoryKeeper, MemoryBell>,
) -> Result<Came, OutOfMemory> {
    let second = second_in(&finished.lanes);
    let numbers = numbers_in(alloc, &finished.desk.board);
    match numbers {
        Ok(numbers) if finished.whole => Ok(Came { numbers, second }),
        _ => Err(OutOfMemory),
    }
}

// Drops the contract of `run_lanes` here, over type parameters, so that only this proof pays for it.
fn finished_by<K: Keeper + Send, B: Bell + Send, G: Gate + Sync, R: Threads + Wait + Sync>(
    rt: &R,
    alloc: Global,
    desk: Desk<K, B>,
    lanes: Vec<Lane>,
    gate: &G,
) -> Finished<K, B>
    requires { AllByRecursion IsFresh lanes.items }
{
    run_lanes(rt, alloc, desk, lanes, gate)
}

// What comes of lanes at a gate, over the tables.
#[tactic(auto, using(keeper::proofs::Crossing::MemoryKeeper_send, alerts::proofs::Crossing::MemoryBell_send))]
fn run_over<G: Gate + Sync, R: Threads + Wait + Sync>(
    rt: &R,
    alloc: Global,
    tables: Tables,
    lanes: Vec<Lane>,
    gate: &G,
) -> Result<Came, OutOfMemory>
    requires { AllByRecursion IsFresh lanes.items }
{
    let desk = memory_desk(alloc, listed_board(alloc, tables));
    let finished = finished_by(rt, alloc, desk, lanes, gate);
    came_of(alloc, finished)
}

// What comes of two lanes at a gate, of which this is the first.
fn run<G: Gate + Sync, R: Threads + Wait + Sync>(
    rt: &R,
    alloc: Global,
    one: &str,
    gate: &G,
) -> Result<Came, TableFault> {
    let lanes = two_lanes(alloc, one)?;
    let tables = small_tables(alloc)?;
    Ok(run_over(rt, alloc, tables, lanes, gate)?)
}

// Whether there is one tick and then six calls, of which these are the last two.
fn ends_in(numbers: &[u64], fifth: u64, sixth: u64) -> bool {
    numbers.len() == 7 && numbers[0] == 0 && numbers[5] == fifth && numbers[6] == sixth
}

// Two lanes meet at their first items. The calls 2 and 3 come after 4, 5 and 6 where the first lane is held, and 5 and
// 6 after 1, 2 and 3 where the second is.
#[test]
fn two_lanes_meet(rt: HostRuntime) -> Result<(), Fail> {
    for (held, fifth, sixth) in [(1, 2, 3), (2, 5, 6)] {
        let meeting = Meeting::new(2, held);
        let came = run(&rt, rt.alloc(), ONE, &meeting)?;
        assert!(rt; !meeting.gave_up(), "lane {held} is held: the lanes met");
        assert!(rt;
            ends_in(&came.numbers, fifth, sixth),
            "lane {held} is held: its calls come last"
        );
    }
    Ok(())
}

// A line that changes nothing is answered when its turn comes: after a tick, its lane's first call and the three of the
// other.
#[test]
fn a_held_line_is_answered_late(rt: HostRuntime) -> Result<(), Fail> {
    for one in [VIEW, REFUSAL, REPEAT] {
        let meeting = Meeting::new(2, 1);
        let came = run(&rt, rt.alloc(), one, &meeting)?;
        assert!(rt; !meeting.gave_up(), "the lanes met");
        assert!(rt; came.numbers.len() == 5, "the second line has no entry");
        assert!(rt; came.second == Some(5), "all five stand before it");
    }
    Ok(())
}

// The gate is told of six lines, and called before and after each of the three of a lane, and after it without the
// lock.
#[test]
fn each_line_passes_the_gate(rt: HostRuntime) -> Result<(), Fail> {
    let counting = Counting::new();
    let came = run(&rt, rt.alloc(), ONE, &counting)?;
    assert!(rt;
        !counting.gave_up(),
        "the lanes met after their first lines"
    );
    assert!(rt; counting.was_told(6), "six lines are to come");
    assert!(rt; counting.has_counted(6), "six calls a lane, in order");
    assert!(rt; came.numbers.len() == 7, "a tick and six calls");
    Ok(())
}
