ghost use Rattle.std.specs.Prelude.{◌≡◌, ◌++◌, IsTrue, IfOk, OnOk};
ghost use Rattle.std.specs.List.{AllByRecursion};
ghost use Rattle.desk_state.specs.Sound.{IsEntered};
ghost use Rattle.desk_state.specs.Texts.{closing};
ghost use Rattle.desk.specs.Race as spec;
ghost use Rattle.desk.specs.Race.{lanes_of, race_text};
ghost use Rattle.desk.specs.Shown.{IsShown};

use crate::lanes::Lane;
use crate::run::{push_closing, said_text};
use board::Board;
use desk_io::{OutOfMemory, Text, push_all};
use desk_json::{call_text, reply_text};
use desk_state::{Entry, Outcome, What};
use desk_time::show;
use std::alloc::Global;

/// A lane for each script, without outcomes yet.
pub(crate) fn lanes_of(alloc: Global, scripts: &[Text]) -> Result<Vec<Lane>, OutOfMemory>
    ensures { IfOk result (λ v. v.items ≡ lanes_of scripts.now) }
{
    let mut lanes = Vec::new(alloc);
    for script in scripts {
        lanes.push(Lane::of(alloc, script.bytes())?)?;
    }
    Ok(lanes)
}

fn push_what(alloc: Global, out: &mut Vec<u8>, what: &What) -> Result<(), OutOfMemory>
    requires { IsEntered what.now }
    ensures { OnOk result (out.new.items ≡ out.old.items ++ spec.what_text what.now) }
{
    match what {
        What::Tick { to } => push_all(out, &[b" TICK ", &show(*to)]),
        What::Asked { call, reply } => {
            let call = call_text(alloc, call)?;
            let reply = reply_text(alloc, reply)?;
            push_all(out, &[b" CALL ", call.bytes(), b" ", reply.bytes()])
        }
    }
}

fn push_entry(alloc: Global, out: &mut Vec<u8>, entry: &Entry) -> Result<(), OutOfMemory>
    requires { IsEntered entry.now.what }
    ensures { OnOk result (out.new.items ≡ out.old.items ++ spec.entry_text entry.now) }
{
    let lane = entry.lane.to_string(alloc)?;
    out.extend_from_slice(lane.as_bytes())?;
    push_what(alloc, out, &entry.what)?;
    out.push(b'\n')?;
    Ok(())
}

fn push_entries(alloc: Global, out: &mut Vec<u8>, board: &Board) -> Result<(), OutOfMemory>
    requires { IsTrue board.now.listed }
    ensures { OnOk result (out.new.items ≡ out.old.items ++ spec.entries_text board.now.state.entries) }
{
    for i in 0..board.entries() {
        push_entry(alloc, out, board.entry(i))?;
    }
    Ok(())
}

fn push_history(alloc: Global, out: &mut Vec<u8>, board: &Board) -> Result<(), OutOfMemory>
    requires { IsTrue board.now.listed }
    ensures { OnOk result (out.new.items ≡ out.old.items ++ spec.history_text board.now.state.entries) }
{
    let count = board.entries().to_string(alloc)?;
    push_all(out, &[b"HISTORY ", count.as_bytes(), b"\n"])?;
    push_entries(alloc, out, board)
}

fn push_line(alloc: Global, out: &mut Vec<u8>, outcome: &Outcome) -> Result<(), OutOfMemory>
    requires { IsShown outcome.now }
    ensures { OnOk result (out.new.items ≡ out.old.items ++ spec.line_text outcome.now) }
{
    let position = outcome.position.to_string(alloc)?;
    let said = said_text(alloc, &outcome.said)?;
    push_all(out, &[position.as_bytes(), b" ", said.bytes(), b"\n"])
}

fn push_lines(alloc: Global, out: &mut Vec<u8>, outcomes: &[Outcome]) -> Result<(), OutOfMemory>
    requires { AllByRecursion IsShown outcomes.now }
    ensures { OnOk result (out.new.items ≡ out.old.items ++ spec.lines_text outcomes.now) }
{
    for outcome in outcomes {
        push_line(alloc, out, outcome)?;
    }
    Ok(())
}

fn push_lane(
    alloc: Global,
    out: &mut Vec<u8>,
    number: usize,
    lane: &Lane,
) -> Result<(), OutOfMemory>
    ensures { OnOk result (out.new.items ≡ out.old.items ++ spec.lane_text number lane.now) }
{
    let number = number.to_string(alloc)?;
    let count = lane.items().len().to_string(alloc)?;
    push_all(
        out,
        &[b"LANE ", number.as_bytes(), b" ", count.as_bytes(), b"\n"],
    )?;
    push_lines(alloc, out, lane.outcomes())
}

fn push_lanes(alloc: Global, out: &mut Vec<u8>, lanes: &[Lane]) -> Result<(), OutOfMemory>
    ensures { OnOk result (out.new.items ≡ out.old.items ++ spec.lanes_text 1 lanes.now) }
{
    for (i, lane) in lanes.iter().enumerate() {
        push_lane(alloc, out, i + 1, lane)?;
    }
    Ok(())
}

/// The text of a race: the history, the outcomes of each lane, and the closing text.
#[tactic(auto, unfolding(crate::specs::Race::race_text))]
pub(crate) fn race_text(alloc: Global, board: &Board, lanes: &[Lane]) -> Result<Text, OutOfMemory>
    requires { IsTrue board.now.listed }
    ensures { IfOk result (λ t. t ≡ race_text board.now.state lanes.now) }
{
    let mut out = Vec::new(alloc);
    push_history(alloc, &mut out, board)?;
    push_lanes(alloc, &mut out, lanes)?;
    push_closing(alloc, board, &mut out)?;
    Ok(Text::from_vec(out))
}
