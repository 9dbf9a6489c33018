ghost use Rattle.std.specs.Prelude.{◌≡◌, ◌++◌, None, map, IfOk, OnOk};
ghost use Rattle.std.specs.Option.{option_copied};
ghost use Rattle.plan.specs.Check.{IsPlan};
ghost use Rattle.release_text.specs.Weather as spec;
ghost use Rattle.release_text.specs.Laws.{AreCovered, AreLatest};

use crate::airports::concerned;
use desk_io::{Copied, Listed, OutOfMemory, Station};
use facts::{Report, Reports};
use plan::{Attached, AttachedList, Phase, Plan};
use std::alloc::Global;

fn attached_of(alloc: Global, report: &Report) -> Result<Attached, OutOfMemory>
    ensures { IfOk result (λ a. a ≡ spec.attached_of report.now) }
{
    Ok(Attached {
        report: report.id,
        text: report.text.copy(alloc)?,
    })
}

fn push_held(
    alloc: Global,
    list: &mut AttachedList,
    report: Option<&Report>,
) -> Result<(), OutOfMemory>
    ensures { OnOk result (list.new ≡ list.old ++ map spec.attached_of (spec.where_held (option_copied report.entry))) }
{
    match report {
        None => Ok(()),
        Some(report) => list.push(attached_of(alloc, report)?),
    }
}

fn push_latest(
    alloc: Global,
    list: &mut AttachedList,
    reports: &Reports,
    station: Station,
) -> Result<(), OutOfMemory>
    ensures { OnOk result (list.new ≡ list.old ++ map spec.attached_of (spec.latest_at reports.now.reports station)) }
{
    push_held(alloc, list, reports.latest_metar(station))?;
    push_held(alloc, list, reports.latest_taf(station))
}

fn latest_of(
    alloc: Global,
    reports: &Reports,
    stations: &[Station],
) -> Result<AttachedList, OutOfMemory>
    ensures { IfOk result (λ list. list ≡ map spec.attached_of (spec.latest_of reports.now.reports stations.now)) }
{
    let mut list = Listed::new(alloc);
    for station in stations {
        push_latest(alloc, &mut list, reports, *station)?;
    }
    Ok(list)
}

#[tactic(auto, unfolding(crate::specs::Weather::attached_to, crate::specs::Weather::weather_for))]
fn attached_to(
    alloc: Global,
    reports: &Reports,
    plan: &Plan,
    phase: Phase,
) -> Result<AttachedList, OutOfMemory>
    requires { IsPlan plan.now }
    ensures { IfOk result (λ list. list ≡ spec.attached_to reports.now.reports plan.now phase) }
{
    let stations = concerned(alloc, plan, phase)?;
    latest_of(alloc, reports, &stations)
}

/// Returns the weather reports to attach to a release (14 CFR 121.687(b)). For each station that the release concerns
/// these are its latest METAR or SPECI and then its latest TAF, if there are any. A leg that hasn't departed concerns
/// its departure and takeoff alternate, then its destination and alternates. The leg in flight concerns its
/// destination and alternates. Each station counts once, at its first place. Until another report is admitted,
/// `newer` finds none that is newer.
pub fn attach(
    alloc: Global,
    reports: &Reports,
    plan: &Plan,
    phase: Phase,
) -> Result<AttachedList, OutOfMemory>
    requires { IsPlan plan.now }
    ensures value { IfOk result (λ list. list ≡ spec.attached_to reports.now.reports plan.now phase) }
    ensures covered { IfOk result (λ list. AreCovered reports.now.reports plan.now phase list) }
    ensures latest { IfOk result (λ list. AreLatest reports.now.reports plan.now phase list) }
    ensures newest { IfOk result (λ list. spec.newer_than reports.now.reports plan.now phase list ≡ None) }
{
    attached_to(alloc, reports, plan, phase)
}
