ghost use Rattle.std.specs.Prelude.{◌≡◌, ◌≤◌, ◌++◌, length, map, IfOk, OnOk, option_to_list};
ghost use Rattle.std.specs.Option.{option_copied};
ghost use Rattle.facts.specs.Latest as latest;
ghost use Rattle.facts.specs.Latest.{metar_latest, taf_latest};
ghost use Rattle.deferrals.specs.Held.{AreRising, without};
ghost use Rattle.deferrals.specs.Limits.{is_of, open_on as opened};
ghost use Rattle.rules.specs.Grounds.{reports_of, once_cleared, deferrals_of, grounds_of, grounds_held};
ghost use Rattle.rules.specs.Evidence as spec;

use deferrals::{DEFERRAL_LIMIT, Deferral, Deferrals};
use desk_io::{OutOfMemory, Station};
use desk_time::Minute;
use facts::{Read, Report, Reports};
use ops_tables::Tables;
use std::alloc::Global;
use weather_reports::{Metar, Taf};

/// The evidence by which a plan is judged: what the desk holds, and the change that is about to be made to it.
#[derive(Clone, Copy)]
pub struct Evidence<'a> {
    /// The reports that the desk holds.
    pub held: &'a Reports,
    /// The report that is about to be admitted.
    pub fresh: Option<&'a Report>,
    /// The deferrals that are open.
    pub deferrals: &'a Deferrals,
    /// The deferral that is about to be added.
    pub deferred: Option<&'a Deferral>,
    /// The id of the deferral that is about to be cleared.
    pub cleared: Option<u64>,
    /// The operations tables of the airline.
    pub tables: &'a Tables,
    /// The moment of the judgement.
    pub moment: Minute,
}

// Returns the later report. If both have the same moment, it is the second.
fn later<'a>(earlier: Option<&'a Report>, report: &'a Report) -> Option<&'a Report>
    ensures { option_copied result ≡ latest.later (option_copied earlier.entry) (Some report.now) }
{
    match earlier {
        Some(first) if report.minute() < first.minute() => earlier,
        _ => Some(report),
    }
}

fn is_metar(read: &Read) -> bool
    ensures { result ≡ spec.is_metar read.now }
{
    match read {
        Read::Metar(_) => true,
        Read::Taf(_) => false,
    }
}

fn is_taf(read: &Read) -> bool
    ensures { result ≡ spec.is_taf read.now }
{
    match read {
        Read::Metar(_) => false,
        Read::Taf(_) => true,
    }
}

fn with_report<'a>(
    alike: bool,
    held: Option<&'a Report>,
    station: Station,
    report: &'a Report,
) -> Option<&'a Report>
    ensures { option_copied result ≡ spec.with_report alike (option_copied held.entry) station report.now }
{
    if alike && report.station().bytes() == station.bytes() {
        later(held, report)
    } else {
        held
    }
}

fn with_metar<'a>(
    held: Option<&'a Report>,
    station: Station,
    fresh: Option<&'a Report>,
) -> Option<&'a Report>
    ensures { option_copied result ≡ spec.with_metar (option_copied held.entry) station (option_copied fresh.entry) }
{
    match fresh {
        None => held,
        Some(report) => with_report(is_metar(&report.read), held, station, report),
    }
}

fn with_taf<'a>(
    held: Option<&'a Report>,
    station: Station,
    fresh: Option<&'a Report>,
) -> Option<&'a Report>
    ensures { option_copied result ≡ spec.with_taf (option_copied held.entry) station (option_copied fresh.entry) }
{
    match fresh {
        None => held,
        Some(report) => with_report(is_taf(&report.read), held, station, report),
    }
}

// Returns the latest METAR or SPECI of a station, among the held reports and the one about to be admitted.
#[tactic(auto, using(crate::proofs::FreshLaws::metar_with))]
fn latest_metar<'a>(
    held: &'a Reports,
    fresh: Option<&'a Report>,
    station: Station,
) -> Option<&'a Report>
    ensures { option_copied result ≡ latest.latest_metar (held.now.reports ++ option_to_list
        (option_copied fresh.entry)) station }
{
    with_metar(held.latest_metar(station), station, fresh)
}

// Returns the latest TAF of a station, among the held reports and the one about to be admitted.
#[tactic(auto, using(crate::proofs::FreshLaws::taf_with))]
fn latest_taf<'a>(
    held: &'a Reports,
    fresh: Option<&'a Report>,
    station: Station,
) -> Option<&'a Report>
    ensures { option_copied result ≡ latest.latest_taf (held.now.reports ++ option_to_list
        (option_copied fresh.entry)) station }
{
    with_taf(held.latest_taf(station), station, fresh)
}

fn is_of(tail: &[u8], deferral: &Deferral) -> bool
    ensures { result ≡ is_of tail.now deferral.now }
{
    deferral.tail.bytes() == tail
}

// Returns the deferrals except that of this id.
fn but_for<'a>(
    alloc: Global,
    list: &[&'a Deferral],
    id: u64,
) -> Result<Vec<&'a Deferral>, OutOfMemory>
    ensures { IfOk result (λ v. map (λ d. d.now) v.items ≡ without id (map (λ d. d.now) list.now)) }
{
    let mut others = Vec::new(alloc);
    for deferral in list {
        if deferral.id != id {
            others.push(*deferral)?;
        }
    }
    Ok(others)
}

// Returns the open deferrals of an aircraft except the one that is cleared. It finds them by binary search.
#[tactic(auto, using(crate::proofs::OpenLaws::opened_without))]
fn open_once_cleared<'a>(
    alloc: Global,
    deferrals: &'a Deferrals,
    cleared: Option<u64>,
    tail: &[u8],
) -> Result<Vec<&'a Deferral>, OutOfMemory>
    ensures { IfOk result (λ v. map (λ d. d.now) v.items ≡ opened tail.now (once_cleared cleared deferrals.now.list)) }
{
    let open = deferrals.open_on(alloc, tail)?;
    match cleared {
        None => Ok(open),
        Some(id) => but_for(alloc, &open, id),
    }
}

// Adds the deferral if it belongs to the aircraft.
fn push_deferred<'a>(
    list: &mut Vec<&'a Deferral>,
    deferred: Option<&'a Deferral>,
    tail: &[u8],
) -> Result<(), OutOfMemory>
    ensures { OnOk result (map (λ d. d.now) list.new.items ≡ map (λ d. d.now) list.old.items ++ opened tail.now
        (option_to_list (option_copied deferred.entry))) }
{
    if let Some(deferral) = deferred
        && is_of(tail, deferral)
    {
        list.push(deferral)?;
    }
    Ok(())
}

impl<'a> Evidence<'a> {
    /// The evidence that the desk holds, without a change.
    #[tactic(auto, using(crate::proofs::OpenLaws::and_none))]
    pub(crate) fn held(
        facts: &'a Reports,
        deferrals: &'a Deferrals,
        tables: &'a Tables,
        moment: Minute,
    ) -> Evidence<'a>
        ensures grounds { grounds_of result ≡ grounds_held tables.now facts.now.reports deferrals.now.list moment }
        ensures few { length (deferrals_of result) ≤ DEFERRAL_LIMIT }
        ensures rising { AreRising (deferrals_of result) }
    {
        // This call proves that the ids increase and that the list is within its limit.
        let _ = deferrals.as_slice();
        Evidence {
            held: facts,
            fresh: None,
            deferrals,
            deferred: None,
            cleared: None,
            tables,
            moment,
        }
    }

    /// Returns the reading of the latest METAR or SPECI of a station.
    pub(crate) fn metar_of(&self, station: Station) -> Option<&'a Metar>
        ensures { option_copied result ≡ metar_latest (reports_of self.now) station }
    {
        latest_metar(self.held, self.fresh, station)?.read.metar()
    }

    /// Returns the reading of the latest TAF of a station.
    pub(crate) fn taf_of(&self, station: Station) -> Option<&'a Taf>
        ensures { option_copied result ≡ taf_latest (reports_of self.now) station }
    {
        latest_taf(self.held, self.fresh, station)?.read.taf()
    }

    /// Returns the deferrals of an aircraft that will be open after the change, in the order of their ids.
    #[tactic(auto, using(crate::proofs::OpenLaws::opened_append))]
    pub(crate) fn deferrals_on(
        &self,
        alloc: Global,
        tail: &[u8],
    ) -> Result<Vec<&'a Deferral>, OutOfMemory>
        ensures { IfOk result (λ v. map (λ d. d.now) v.items ≡ opened tail.now (deferrals_of self.now)) }
    {
        let mut open = open_once_cleared(alloc, self.deferrals, self.cleared, tail)?;
        push_deferred(&mut open, self.deferred, tail)?;
        Ok(open)
    }
}
