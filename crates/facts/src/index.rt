ghost use Rattle.std.specs.Prelude.{◌≡◌, Some};
ghost use Rattle.std.specs.List.{slice_get};
ghost use Rattle.std.specs.Option.{option_and_then, option_copied};
ghost use Rattle.facts.specs.Index as spec;

use crate::latest::Kind;
use crate::report::{Read, Report};
use desk_io::Sorted;

/// Where a station's latest reports are in the list of all reports.
#[derive(Clone, Copy, Debug, Drop)]
pub(crate) struct Places {
    /// The latest METAR or SPECI.
    pub(crate) observation: Option<usize>,
    /// The latest TAF.
    pub(crate) forecast: Option<usize>,
}

fn later_of(held: &Report, at: usize, report: &Report, place: usize) -> usize
    ensures { result ≡ spec.later_of (Some held.now) at report.now place }
{
    if report.minute() < held.minute() {
        at
    } else {
        place
    }
}

fn later_place(reports: &[Report], held: Option<usize>, report: &Report, place: usize) -> usize
    ensures { result ≡ spec.later_place reports.now held report.now place }
{
    let Some(at) = held else {
        return place;
    };
    match reports.get(at) {
        None => place,
        Some(held) => later_of(held, at, report, place),
    }
}

/// The place of the latest report of that kind.
pub(crate) fn place_of(kind: Kind, places: Places) -> Option<usize>
    ensures { result ≡ spec.place_of kind places }
{
    match kind {
        Kind::Observation => places.observation,
        Kind::Forecast => places.forecast,
    }
}

/// The places after `report` is added at `place`.
pub(crate) fn places_with(
    reports: &[Report],
    places: Places,
    report: &Report,
    place: usize,
) -> Places
    ensures { result ≡ spec.places_with reports.now places report.now report.now.read place }
{
    match report.read {
        Read::Metar(_) => Places {
            observation: Some(later_place(reports, places.observation, report, place)),
            forecast: places.forecast,
        },
        Read::Taf(_) => Places {
            observation: places.observation,
            forecast: Some(later_place(reports, places.forecast, report, place)),
        },
    }
}

/// The places of a station's latest reports, without any if it has no report.
pub(crate) fn places_at(stations: &Sorted<[u8; 4], Places>, station: [u8; 4]) -> Places
    ensures { result ≡ spec.places_or (spec.of_station stations.now.entries station) }
{
    match stations.get(&station) {
        Some(places) => *places,
        None => Places {
            observation: None,
            forecast: None,
        },
    }
}

/// The report at a place, if there is one.
pub(crate) fn at_place(reports: &[Report], place: Option<usize>) -> Option<&Report>
    ensures { option_copied result ≡ option_and_then (slice_get reports.now) place }
{
    reports.get(place?)
}

/// Returns a 64-bit hash of a text. Different texts rarely share it.
#[tactic(auto, unfolding(crate::specs::Index::fingerprint))]
pub fn fingerprint(text: &[u8]) -> u64
    ensures { result ≡ spec.fingerprint text.now }
{
    let mut number: u64 = 1;
    for byte in text {
        number = number
            .wrapping_mul(1_099_511_628_211)
            .wrapping_add(*byte as u64);
    }
    number
}
