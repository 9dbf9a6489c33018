ghost use Rattle.std.specs.Prelude.{◌≡◌, ◌==◌, ◌<◌, ◌∷◌, ◌++◌, [], AllPairs, IsTrue, IfOk, OnOk, if◌then◌else◌, map};
ghost use Rattle.std.specs.List.{list_any};
ghost use Rattle.std.specs.List.Sorted.{IsNonDecreasing};
ghost use Rattle.std.specs.Map.{keys_of};
ghost use Rattle.facts.specs.Index.{IsLatestIndex};
ghost use Rattle.facts.specs.Lines.{stations_of};
ghost use Rattle.facts.specs.Swept as spec;
ghost use Rattle.facts.specs.Swept.{swept, leaving};

use crate::index::{Places, place_of, places_at, places_with};
use crate::latest::Kind;
use crate::report::{Read, Report};
use desk_io::{Listed, OutOfMemory, Sorted};
use desk_time::Minute;
use std::alloc::Global;

fn kind_of(read: &Read) -> Kind
    ensures { result ≡ spec.kind_of read.now }
{
    match read {
        Read::Metar(_) => Kind::Observation,
        Read::Taf(_) => Kind::Forecast,
    }
}

fn is_place(latest: Option<usize>, place: usize) -> bool
    ensures { result ≡ spec.is_place latest place }
{
    match latest {
        Some(at) => at == place,
        None => false,
    }
}

fn stands_latest(stations: &Sorted<[u8; 4], Places>, report: &Report, place: usize) -> bool
    ensures { result ≡ spec.stands_latest stations.now.entries report.now place }
{
    let places = places_at(stations, report.station().bytes());
    is_place(place_of(kind_of(&report.read), places), place)
}

fn are_sorted(keep: &[u64]) -> bool
    ensures { IsTrue result → IsNonDecreasing keep.now }
{
    keep.is_sorted()
}

fn is_found(keep: &[u64], id: u64) -> bool
    requires { IsNonDecreasing keep.now }
    ensures { result ≡ list_any (λ kept. kept == id) keep.now }
{
    keep.binary_search(&id).is_ok()
}

fn is_kept(keep: &[u64], sorted: bool, id: u64) -> bool
    requires { IsTrue sorted → IsNonDecreasing keep.now }
    ensures { result ≡ list_any (λ kept. kept == id) keep.now }
{
    if sorted {
        is_found(keep, id)
    } else {
        keep.contains(&id)
    }
}

fn stays_at(
    before: Minute,
    keep: &[u64],
    sorted: bool,
    stations: &Sorted<[u8; 4], Places>,
    report: &Report,
    place: usize,
) -> bool
    requires { IsTrue sorted → IsNonDecreasing keep.now }
    ensures { result ≡ spec.stays_at before keep.now stations.now.entries report.now place }
{
    before <= report.minute()
        || stands_latest(stations, report, place)
        || is_kept(keep, sorted, report.id)
}

/// Removes the reports that don't stay. `stations` must be the index of these reports.
#[tactic(auto, unfolding(crate::specs::Swept::swept))]
pub(crate) fn sweep_held(
    held: &mut Vec<Report>,
    stations: &Sorted<[u8; 4], Places>,
    before: Minute,
    keep: &[u64],
)
    requires rising { AllPairs (λ a b. a.id < b.id) held.old.items }
    requires index { IsLatestIndex stations.now.entries held.old.items }
    ensures { held.new.items ≡ swept before keep.now held.old.items }
{
    let sorted = are_sorted(keep);
    let mut to = 0;
    for from in 0..held.len() {
        if stays_at(before, keep, sorted, stations, &held[from], from) {
            held.swap(to, from);
            to += 1;
        }
    }
    held.truncate(to);
}

fn push_unless(ids: &mut Listed<u64>, stays: bool, id: u64) -> Result<(), OutOfMemory>
    ensures { OnOk result (ids.new ≡ ids.old ++ (if stays then [] else id ∷ [])) }
{
    if stays {
        return Ok(());
    }
    ids.push(id)
}

/// The ids of the reports that don't stay, in order. `stations` must be the index of these reports.
#[tactic(auto, unfolding(crate::specs::Swept::leaving))]
pub(crate) fn leaving_ids(
    alloc: Global,
    held: &[Report],
    stations: &Sorted<[u8; 4], Places>,
    before: Minute,
    keep: &[u64],
) -> Result<Listed<u64>, OutOfMemory>
    requires rising { AllPairs (λ a b. a.id < b.id) held.now }
    requires index { IsLatestIndex stations.now.entries held.now }
    ensures { IfOk result (λ ids. ids ≡ map (λ r. r.id) (leaving before keep.now held.now)) }
{
    let sorted = are_sorted(keep);
    let mut ids = Listed::new(alloc);
    for (place, report) in held.iter().enumerate() {
        let stays = stays_at(before, keep, sorted, stations, report, place);
        push_unless(&mut ids, stays, report.id)?;
    }
    Ok(ids)
}

/// Updates the index to the latest of these reports. Its stations must be those of the reports. Allocates nothing.
pub(crate) fn index_latest(stations: &mut Sorted<[u8; 4], Places>, held: &[Report])
    requires { keys_of stations.old.entries ≡ stations_of held.now }
    ensures { IsLatestIndex stations.new.entries held.now }
{
    stations.set_all(Places {
        observation: None,
        forecast: None,
    });
    for (place, report) in held.iter().enumerate() {
        let station = report.station().bytes();
        let places = places_at(stations, station);
        let places = places_with(&held[..place], places, report, place);
        stations.replace(&station, places);
    }
}
