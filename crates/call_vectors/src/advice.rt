ghost use Rattle.std.specs.Prelude.{◌≡◌, ◌≢◌, ◌<◌, ◌≤◌, All, None, IfOk, IfSome, IsTrue, length};
ghost use Rattle.facts.specs.Reading.{IsRead};
ghost use Rattle.plan.specs.Check.{IsPlan, plan_fault};
ghost use Rattle.plan.specs.Phases.{standing};
ghost use Rattle.advise.specs.Candidates.{AreCandidates};

use crate::fields::{items_at, number_at, small_number_at, text_at, truth_at};
use crate::operations::{alternates_in, push_given};
use crate::tables::{Files, push_files, tables_of};
use advise::{Advice, Candidate, Steps, advise};
use candidate_files::read_candidates;
use codes::ReportFault;
use deferrals::{DEFERRAL_LIMIT, Deferral, Deferrals};
use desk_io::{OutOfMemory, Text, push_all};
use desk_json::{PlanText, read_plan};
use desk_time::{FIRST, LAST, Minute, read_minute};
use facts::{Received, Report, Reports, receive};
use ops_tables::Tables;
use plan::{Phase, Plan, Standing, check_plan, standing_of};
use release_json::read_phase;
use serde_json::Value;
use std::alloc::Global;
use std::marker::Brand;
use std::sync::ledger::{Blank, Ledger};
use table_files::TableFault;

/// What the plan of a case is judged by.
#[derive(Drop)]
pub(crate) struct Evidence {
    pub tables: Tables,
    pub reports: Reports,
    pub deferrals: Deferrals,
    pub moment: Minute,
}

fn moment_at(case: &Value, key: &str) -> Option<Minute>
    ensures { IfSome result (λ m. (FIRST ≤ m) × (m ≤ LAST)) }
{
    read_minute(text_at(case, key)?.as_bytes())
}

fn report_of(alloc: Global, id: u64, case: &Value) -> Result<Option<Report>, OutOfMemory>
    ensures id { IfOk result (λ report. IfSome report (λ r. r.id ≡ id)) }
    ensures read { IfOk result (λ report. IfSome report IsRead) }
{
    let (Some(text), Some(received)) = (text_at(case, "text"), moment_at(case, "received")) else {
        return Ok(None);
    };
    match receive(alloc, text.as_bytes(), received) {
        Ok(Received { text, read }) => Ok(Some(Report {
            id,
            received,
            text,
            read,
        })),
        Err(ReportFault::Bad(_)) => Ok(None),
        Err(ReportFault::OutOfMemory) => Err(OutOfMemory),
    }
}

fn is_newest(reports: &[Report], id: u64) -> bool
    ensures { IsTrue result → All (λ held. held.id < id) reports.now }
{
    reports.iter().all(|held| held.id < id)
}

// Admits the report of a case. Returns false if it can't be read.
fn admit(alloc: Global, reports: &mut Reports, id: u64, case: &Value) -> Result<bool, OutOfMemory> {
    let Some(report) = report_of(alloc, id, case)? else {
        return Ok(false);
    };
    if !is_newest(reports.as_slice(), id) {
        return Ok(false);
    }
    reports.reserve(&report)?;
    reports.admit(report);
    Ok(true)
}

// Admits the reports of a case. Returns false if one of them can't be read.
fn admit_all(alloc: Global, reports: &mut Reports, cases: &[Value]) -> Result<bool, OutOfMemory> {
    let mut id: u64 = 1;
    for case in cases {
        if !admit(alloc, reports, id, case)? {
            return Ok(false);
        }
        id = id.saturating_add(1);
    }
    Ok(true)
}

fn deferral_of(alloc: Global, id: u64, case: &Value) -> Result<Option<Deferral>, OutOfMemory>
    ensures { IfOk result (λ deferral. IfSome deferral (λ d. d.id ≡ id)) }
{
    let (Some(tail), Some(item), Some(found)) = (
        text_at(case, "tail"),
        text_at(case, "item"),
        moment_at(case, "found"),
    ) else {
        return Ok(None);
    };
    Ok(Some(Deferral {
        id,
        tail: Text::of(alloc, tail.as_bytes())?,
        item: Text::of(alloc, item.as_bytes())?,
        found,
    }))
}

fn is_last(deferrals: &[Deferral], id: u64) -> bool
    ensures { IsTrue result → All (λ held. held.id < id) deferrals.now }
{
    deferrals.iter().all(|held| held.id < id)
}

// Adds the deferral of a case. Returns false if it lacks a key, if its id isn't above those before it, or if there is
// no room for it.
fn defer(alloc: Global, deferrals: &mut Deferrals, case: &Value) -> Result<bool, OutOfMemory> {
    let Some(id) = number_at(case, "id", u64::MAX) else {
        return Ok(false);
    };
    let Some(deferral) = deferral_of(alloc, id, case)? else {
        return Ok(false);
    };
    if deferrals.as_slice().len() >= DEFERRAL_LIMIT || !is_last(deferrals.as_slice(), id) {
        return Ok(false);
    }
    deferrals.reserve()?;
    deferrals.add(deferral);
    Ok(true)
}

// Adds the deferrals of a case. Returns false if one of them can't be added.
fn defer_all(
    alloc: Global,
    deferrals: &mut Deferrals,
    cases: &[Value],
) -> Result<bool, OutOfMemory> {
    for case in cases {
        if !defer(alloc, deferrals, case)? {
            return Ok(false);
        }
    }
    Ok(true)
}

// The small tables, with those that a case replaces.
fn tables_in(alloc: Global, case: &Value, small: &Files) -> Result<Option<Tables>, OutOfMemory> {
    let Some(given) = case.get("tables") else {
        return Ok(None);
    };
    let mut files = Vec::new(alloc);
    push_given(alloc, &mut files, given)?;
    push_files(alloc, &mut files, small)?;
    match tables_of(alloc, files) {
        Ok(tables) => Ok(Some(tables)),
        Err(TableFault::OutOfMemory) => Err(OutOfMemory),
        Err(_) => Ok(None),
    }
}

// The reports and deferrals of a case, or None if one of them can't be read.
fn records_in(alloc: Global, case: &Value) -> Result<Option<(Reports, Deferrals)>, OutOfMemory> {
    let mut reports = Reports::new(alloc);
    let mut deferrals = Deferrals::new(alloc);
    if admit_all(alloc, &mut reports, items_at(case, "reports"))?
        && defer_all(alloc, &mut deferrals, items_at(case, "deferrals"))?
    {
        Ok(Some((reports, deferrals)))
    } else {
        Ok(None)
    }
}

/// The tables, reports, deferrals and moment of a case, or None if one of them can't be read.
pub(crate) fn evidence_in(
    alloc: Global,
    case: &Value,
    small: &Files,
) -> Result<Option<Evidence>, OutOfMemory> {
    let Some(moment) = moment_at(case, "now") else {
        return Ok(None);
    };
    let Some((reports, deferrals)) = records_in(alloc, case)? else {
        return Ok(None);
    };
    let Some(tables) = tables_in(alloc, case, small)? else {
        return Ok(None);
    };
    Ok(Some(Evidence {
        tables,
        reports,
        deferrals,
        moment,
    }))
}

/// The plan of a case.
pub(crate) fn plan_in(alloc: Global, case: &Value) -> Result<Option<Plan>, OutOfMemory>
    ensures { IfOk result (λ plan. IfSome plan IsPlan) }
{
    let Some(text) = text_at(case, "plan") else {
        return Ok(None);
    };
    match read_plan(alloc, text.as_bytes()) {
        Ok(plan) => Ok(Some(plan)),
        Err(PlanText::NotPlan) => Ok(None),
        Err(PlanText::OutOfMemory) => Err(OutOfMemory),
    }
}

// Adds the number at a key in decimal, and a sign after it.
fn push_number(
    alloc: Global,
    out: &mut Vec<u8>,
    case: &Value,
    key: &str,
    sign: &[u8],
) -> Result<(), OutOfMemory> {
    if let Some(number) = number_at(case, key, u64::MAX) {
        push_all(out, &[number.to_string(alloc)?.as_bytes(), sign])?;
    }
    Ok(())
}

// The candidates of a case as a file.
fn candidates_file(alloc: Global, case: &Value) -> Result<Vec<u8>, OutOfMemory> {
    let mut out = Vec::from_slice(alloc, b"leg,station,minutes,fuel\n")?;
    for candidate in items_at(case, "candidates") {
        push_number(alloc, &mut out, candidate, "leg", b",")?;
        if let Some(station) = text_at(candidate, "station") {
            push_all(&mut out, &[station.as_bytes(), b","])?;
        }
        push_number(alloc, &mut out, candidate, "minutes", b",")?;
        push_number(alloc, &mut out, candidate, "fuel", b"\n")?;
    }
    Ok(out)
}

// Whether the advice on a leg is that which the case expects.
fn is_wanted(alloc: Global, wanted: &Value, found: &Option<Advice>) -> Result<bool, OutOfMemory> {
    match found {
        None => Ok(truth_at(wanted, "none") == Some(true)),
        Some(advice) => {
            let alternates = alternates_in(alloc, wanted)?;
            Ok(
                truth_at(wanted, "none").is_none()
                    && number_at(wanted, "required", u64::MAX) == Some(advice.required)
                    && alternates.as_slice() == advice.alternates.as_slice(),
            )
        }
    }
}

// Whether a leg gets the advice that the case expects.
fn is_advised<L: Ledger>(
    alloc: Global,
    evidence: &Evidence,
    plan: &Plan,
    phase: Phase,
    leg: u32,
    candidates: &[Candidate],
    wanted: &Value,
    steps: &mut Steps<L>,
) -> Result<bool, OutOfMemory>
    requires plan { IsPlan plan.now }
    requires valid { plan_fault evidence.now.tables plan.now ≡ None }
    requires leg { (1 ≤ leg) × (leg ≤ length plan.now.legs) }
    requires not_flown { standing phase leg ≢ Standing.Flown }
    requires candidates { AreCandidates evidence.now.tables plan.now candidates.now }
{
    if small_number_at(wanted, "leg") != Some(leg) {
        return Ok(false);
    }
    let advice = advise(
        alloc,
        plan,
        phase,
        leg,
        candidates,
        &evidence.reports,
        &evidence.deferrals,
        &evidence.tables,
        evidence.moment,
        steps,
    )?;
    is_wanted(alloc, wanted, &advice)
}

// Whether each leg that isn't flown gets the advice that the case expects, and no other is expected.
fn are_advised<L: Ledger>(
    alloc: Global,
    evidence: &Evidence,
    plan: &Plan,
    phase: Phase,
    candidates: &[Candidate],
    wanted: &[Value],
    blank: Blank,
) -> Result<bool, OutOfMemory>
    requires plan { IsPlan plan.now }
    requires valid { plan_fault evidence.now.tables plan.now ≡ None }
    requires candidates { AreCandidates evidence.now.tables plan.now candidates.now }
    requires name { blank.name ≡ L.name }
    requires parts { blank.parts ≡ L.parts }
    requires some { 0 < blank.parts }
{
    let mut steps = Steps::<L>::new(blank);
    let mut left = wanted;
    for (i, _) in plan.legs.as_slice().iter().enumerate() {
        let leg = i as u32 + 1;
        if standing_of(phase, leg) != Standing::Flown {
            let [first, rest @ ..] = left else {
                return Ok(false);
            };
            if !is_advised(
                alloc, evidence, plan, phase, leg, candidates, first, &mut steps,
            )? {
                return Ok(false);
            }
            left = rest;
        }
    }
    Ok(left.is_empty())
}

fn advises_on(
    alloc: Global,
    case: &Value,
    evidence: &Evidence,
    plan: &Plan,
    phase: Phase,
) -> Result<bool, OutOfMemory>
    requires { IsPlan plan.now }
{
    if check_plan(plan, &evidence.tables).is_err() {
        return Ok(false);
    }
    let file = candidates_file(alloc, case)?;
    match read_candidates(alloc, &file, plan, &evidence.tables)? {
        Err(_) => Ok(false),
        Ok(candidates) => are_advised::<Brand>(
            alloc,
            evidence,
            plan,
            phase,
            candidates.as_slice(),
            items_at(case, "advice"),
            Blank::new(1),
        ),
    }
}

/// Checks a case with the keys `tables`, `now`, `reports`, `deferrals`, `plan`, `phase`, `candidates` and `advice`.
pub fn advises(alloc: Global, case: &Value, small: &Files) -> Result<bool, OutOfMemory> {
    let Some(phase) = phase_in(case) else {
        return Ok(false);
    };
    let Some(plan) = plan_in(alloc, case)? else {
        return Ok(false);
    };
    match evidence_in(alloc, case, small)? {
        None => Ok(false),
        Some(evidence) => advises_on(alloc, case, &evidence, &plan, phase),
    }
}

/// The phase of a case.
pub(crate) fn phase_in(case: &Value) -> Option<Phase> {
    read_phase(text_at(case, "phase")?.as_bytes())
}
