ghost use Rattle.std.specs.Prelude.{◌≡◌, ◌≤◌, ◌++◌, length};
ghost use Rattle.std.specs.Option.{option_copied};
ghost use Rattle.plan.specs.Check.{IsPlan};
ghost use Rattle.release_text.specs.Concerned.{
  takeoff_station,
  departure_stations,
  alternate_stations,
  arrival_stations,
  leg_stations,
  stations_from,
};
ghost use Rattle.release_text.specs.Weather as spec;
ghost use Rattle.release_text.specs.Laws.{IsNoneNewer};

use codes::least_of;
use desk_io::Station;
use facts::{Report, Reports};
use plan::{
    Alternate, Attached, AttachedList, Leg, Phase, Plan, Standing, TakeoffAlternate, standing_of,
};

fn is_attached(attached: &[Attached], id: u64) -> bool
    ensures { result ≡ spec.is_attached attached.now id }
{
    attached.iter().any(|a| a.report == id)
}

fn new_id(attached: &[Attached], report: Option<&Report>) -> Option<u64>
    ensures { result ≡ spec.least_new attached.now (spec.where_held (option_copied report.entry)) }
{
    match report {
        None => None,
        Some(report) => {
            if is_attached(attached, report.id) {
                None
            } else {
                Some(report.id)
            }
        }
    }
}

#[tactic(auto, using(crate::proofs::NewerLaws::least_of_both))]
fn newer_at(reports: &Reports, attached: &[Attached], station: Station) -> Option<u64>
    ensures { result ≡ spec.least_new attached.now (spec.latest_at reports.now.reports station) }
{
    least_of(
        new_id(attached, reports.latest_metar(station)),
        new_id(attached, reports.latest_taf(station)),
    )
}

fn newer_at_takeoff(
    reports: &Reports,
    attached: &[Attached],
    alternate: Option<TakeoffAlternate>,
) -> Option<u64>
    ensures { result ≡ spec.newer_of reports.now.reports attached.now (takeoff_station alternate) }
{
    match alternate {
        None => None,
        Some(alternate) => newer_at(reports, attached, alternate.station),
    }
}

fn newer_at_departure(reports: &Reports, attached: &[Attached], leg: &Leg) -> Option<u64>
    ensures { result ≡ spec.newer_of reports.now.reports attached.now (departure_stations leg.now) }
{
    least_of(
        newer_at(reports, attached, leg.from),
        newer_at_takeoff(reports, attached, leg.takeoff_alternate),
    )
}

#[tactic(auto, using(crate::proofs::NewerLaws::lesser_in_turn))]
fn newer_at_alternates(
    reports: &Reports,
    attached: &[Attached],
    alternates: &[Alternate],
) -> Option<u64>
    ensures { result ≡ spec.newer_of reports.now.reports attached.now (alternate_stations alternates.now) }
{
    let mut least = None;
    for alternate in alternates {
        least = least_of(least, newer_at(reports, attached, alternate.station));
    }
    least
}

fn newer_at_arrival(reports: &Reports, attached: &[Attached], leg: &Leg) -> Option<u64>
    ensures { result ≡ spec.newer_of reports.now.reports attached.now (arrival_stations leg.now) }
{
    least_of(
        newer_at(reports, attached, leg.to),
        newer_at_alternates(reports, attached, leg.alternates.as_slice()),
    )
}

#[tactic(auto, using(crate::proofs::NewerLaws::newer_of_leg))]
fn newer_at_both(reports: &Reports, attached: &[Attached], leg: &Leg) -> Option<u64>
    ensures { result ≡ spec.newer_of reports.now.reports attached.now
        (departure_stations leg.now ++ arrival_stations leg.now) }
{
    least_of(
        newer_at_departure(reports, attached, leg),
        newer_at_arrival(reports, attached, leg),
    )
}

fn newer_on_leg(
    reports: &Reports,
    attached: &[Attached],
    standing: Standing,
    leg: &Leg,
) -> Option<u64>
    ensures { result ≡ spec.newer_of reports.now.reports attached.now (leg_stations standing leg.now) }
{
    match standing {
        Standing::Ahead => newer_at_both(reports, attached, leg),
        Standing::InFlight => newer_at_arrival(reports, attached, leg),
        Standing::Flown => None,
    }
}

fn newer_on_legs(
    reports: &Reports,
    attached: &[Attached],
    phase: Phase,
    legs: &[Leg],
) -> Option<u64>
    requires { length legs.now ≤ 1000 }
    ensures { result ≡ spec.newer_of reports.now.reports attached.now (stations_from phase 1 legs.now) }
{
    let mut least = None;
    for (i, leg) in legs.iter().enumerate() {
        let standing = standing_of(phase, i as u32 + 1);
        least = least_of(least, newer_on_leg(reports, attached, standing, leg));
    }
    least
}

#[tactic(auto, using(crate::proofs::NewerLaws::newer_of_concerned))]
fn newer_than(reports: &Reports, attached: &[Attached], plan: &Plan, phase: Phase) -> Option<u64>
    requires { IsPlan plan.now }
    ensures { result ≡ spec.newer_than reports.now.reports plan.now phase attached.now }
{
    newer_on_legs(reports, attached, phase, plan.legs.as_slice())
}

/// Returns the least number of a latest report that isn't attached, among the stations that the release concerns. It
/// is None exactly if all of these reports are attached, so that the release has the latest weather (14 CFR
/// 121.687(b)). It allocates nothing.
pub fn newer(reports: &Reports, plan: &Plan, phase: Phase, attached: &AttachedList) -> Option<u64>
    requires { IsPlan plan.now }
    ensures value { result ≡ spec.newer_than reports.now.reports plan.now phase attached.now }
    ensures none { IsNoneNewer reports.now.reports plan.now phase attached.now result }
{
    newer_than(reports, attached.as_slice(), plan, phase)
}
