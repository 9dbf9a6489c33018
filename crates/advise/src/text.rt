ghost use Rattle.std.specs.Prelude.{◌≡◌, ◌≤◌, ◌+◌, ◌++◌, length, None, IfOk, OnOk};
ghost use Rattle.plan.specs.Check.{IsPlan, plan_fault};
ghost use Rattle.rules.specs.Grounds.{grounds_held};
ghost use Rattle.advise.specs.Candidates.{AreCandidates};
ghost use Rattle.advise.specs.Text as spec;
ghost use Rattle.advise.specs.Text.{IsAdviceText};

use crate::advice::{Advice, advise};
use crate::candidates::Candidate;
use deferrals::Deferrals;
use desk_io::{OutOfMemory, Text, push_all};
use desk_time::Minute;
use facts::Reports;
use ops_tables::Tables;
use plan::{Alternate, Phase, Plan};
use rules::Steps;
use std::alloc::Global;
use std::sync::ledger::Ledger;

// Adds the stations of alternates, each after a blank.
fn push_stations(out: &mut Vec<u8>, alternates: &[Alternate]) -> Result<(), OutOfMemory>
    ensures { OnOk result (out.new.items ≡ out.old.items ++ spec.stations_text alternates.now) }
{
    for it in alternates {
        push_all(out, &[b" ", &it.station.bytes()])?;
    }
    Ok(())
}

// Adds the stations of alternates, or a dash if there is none.
fn push_alternates(out: &mut Vec<u8>, alternates: &[Alternate]) -> Result<(), OutOfMemory>
    ensures { OnOk result (out.new.items ≡ out.old.items ++ spec.alternates_text alternates.now) }
{
    match alternates {
        [] => push_all(out, &[b" -"]),
        [_, ..] => push_stations(out, alternates),
    }
}

// Adds the fuel that a leg requires.
fn push_required(
    alloc: Global,
    out: &mut Vec<u8>,
    leg: u32,
    required: u64,
) -> Result<(), OutOfMemory>
    ensures { OnOk result (out.new.items ≡ out.old.items ++ spec.required_text leg required) }
{
    let leg = leg.to_string(alloc)?;
    let required = required.to_string(alloc)?;
    push_all(
        out,
        &[
            b"LEG ",
            leg.as_bytes(),
            b" required ",
            required.as_bytes(),
            b" alternates",
        ],
    )
}

// Adds a line with the alternates that a leg should list.
fn push_listed(
    alloc: Global,
    out: &mut Vec<u8>,
    leg: u32,
    advice: &Advice,
) -> Result<(), OutOfMemory>
    ensures { OnOk result (out.new.items ≡ out.old.items ++ spec.listed_line leg advice.now) }
{
    push_required(alloc, out, leg, advice.required)?;
    push_alternates(out, advice.alternates.as_slice())?;
    push_all(out, &[b"\n"])
}

// Adds a line with the advice on a leg.
fn push_line(
    alloc: Global,
    out: &mut Vec<u8>,
    leg: u32,
    advice: &Option<Advice>,
) -> Result<(), OutOfMemory>
    ensures { OnOk result (out.new.items ≡ out.old.items ++ spec.advice_line leg advice.now) }
{
    match advice {
        None => {
            let leg = leg.to_string(alloc)?;
            push_all(out, &[b"LEG ", leg.as_bytes(), b" none\n"])
        }
        Some(advice) => push_listed(alloc, out, leg, advice),
    }
}

/// Advises on each leg of a plan before its first departure (phase READY), as [`advise`] does, and writes a line for
/// each leg: such as `LEG 1 required 19500 alternates KPHL KBOS`, with a dash for no alternate, or `LEG 1 none`. For
/// each leg it counts at most one step more than the leg has candidates.
pub fn advice_text<L: Ledger>(
    alloc: Global,
    plan: &Plan,
    candidates: &[Candidate],
    facts: &Reports,
    deferrals: &Deferrals,
    tables: &Tables,
    moment: Minute,
    steps: &mut Steps<L>,
) -> Result<Text, OutOfMemory>
    requires plan { IsPlan plan.now }
    requires valid { plan_fault tables.now plan.now ≡ None }
    requires candidates { AreCandidates tables.now plan.now candidates.now }
    ensures text { IfOk result (IsAdviceText plan.now candidates.now (grounds_held tables.now facts.now.reports
        deferrals.now.list moment)) }
    // A step for each leg and one for each candidate.
    ensures steps { steps.new ≤ steps.old + (length plan.now.legs + length candidates.now) }
{
    let mut out = Vec::new(alloc);
    for (i, _) in plan.legs.as_slice().iter().enumerate() {
        let number = i as u32 + 1;
        let advice = advise(
            alloc,
            plan,
            Phase::Ready,
            number,
            candidates,
            facts,
            deferrals,
            tables,
            moment,
            steps,
        )?;
        push_line(alloc, &mut out, number, &advice)?;
    }
    Ok(Text::from_vec(out))
}
