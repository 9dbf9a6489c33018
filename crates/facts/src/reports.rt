ghost use Rattle.std.specs.Prelude.{◌≡◌, ◌==◌, ◌<◌, ◌+◌, List, ℕ, All, Some, OnOk, OnErr, IfOk, IfSome, length, map};
ghost use Rattle.std.specs.Option.{option_copied};
ghost use Rattle.desk_time.specs.Limits.{IsMoment};
ghost use Rattle.facts.specs.Same.{same_id};
ghost use Rattle.facts.specs.Reading.{HasMoments, TafHasMoments, IsRead};
ghost use Rattle.facts.specs.Reports.{room_for, no_reports, admissions_of, reserved, admitted, AreHeld};
ghost use Rattle.facts.specs.Index.{IsLatestIndex};
ghost use Rattle.facts.specs.Lines.{AreStations, stations_of};
ghost use Rattle.facts.specs.Swept.{with_swept, leaving};
ghost use Rattle.std.specs.Map.{keys_of};
ghost use Rattle.facts.specs.Latest.{
  latest,
  latest_metar,
  latest_taf,
  metar_latest,
  taf_latest,
  IsLatestMetar,
  IsLatestTaf,
};

use crate::index::{Places, at_place, place_of, places_at, places_with};
use crate::indexing::{keys_of_reports, latest_index};
use crate::latest::Kind;
use crate::report::Report;
use crate::same::{keep_leading, key_of, same_in};
use crate::sweeping::{index_latest, leaving_ids, sweep_held};
use desk_io::{Keys, Listed, OutOfMemory, Sorted, Station};
use desk_time::Minute;
use std::alloc::Global;
use std::marker::Model;
use std::snapshot::Snapshot;
use weather_reports::{Metar, Taf};

/// The admitted reports, in order of admission. Their numbers rise, each text is canonical, and each reading is that
/// of its text at its receipt. Contracts model the list of reports, and the station, text and moment of the one
/// report for which room is reserved.
#[derive(Drop)]
pub struct Reports {
    held: Vec<Report>,
    // The places of the latest reports, by station.
    stations: Sorted<[u8; 4], Places>,
    // A key for each report, by which `same` finds reports.
    keys: Keys<(Minute, u64, u64)>,
    room: Option<Snapshot<Report>>,
}

impl Model for Reports {
    ghost use Rattle.std.specs.Prelude.{◌<◌, ◌≤◌, IsSome, vec_len};
    ghost use Rattle.std.specs.Vec.{vec_capacity};
    ghost use Rattle.std.specs.Option.{option_map};
    ghost use Rattle.facts.specs.Reports.{Admissions, room_for, AreHeld};
    ghost use Rattle.facts.specs.Index.{IsLatestIndex, AreKeysOf};

    ghost Value = { Admissions };

    ghost view = { λ r. record { reports = r.held.items; room = option_map (λ kept. room_for kept.value) r.room } };

    ghost invariant = { λ r. (IsSome r.room → (vec_len r.held < vec_capacity r.held) × (1 ≤ r.stations.room)
        × (1 ≤ r.keys.room)) × AreHeld r.held.items × IsLatestIndex r.stations.entries r.held.items
        × AreKeysOf r.held.items r.keys.keys };
}

#[tactic(auto, using(crate::proofs::IndexLaws::stands_latest))]
fn latest<'a>(
    reports: &'a [Report],
    stations: &Sorted<[u8; 4], Places>,
    kind: Kind,
    station: [u8; 4],
) -> Option<&'a Report>
    requires { IsLatestIndex stations.now.entries reports.now }
    ensures { option_copied result ≡ latest kind station reports.now }
{
    let places = places_at(stations, station);
    at_place(reports, place_of(kind, places))
}

impl Reports {
    /// Creates an empty list without reserved room. Allocates nothing.
    pub fn new(alloc: Global) -> Reports
        ensures { result ≡ no_reports }
    {
        Reports {
            held: Vec::new(alloc),
            stations: Sorted::new(alloc),
            keys: Keys::new(alloc),
            room: None,
        }
    }

    /// Builds the list from the reports of a vector, whose numbers must rise. Sorts each index once, and reserves no
    /// room.
    pub fn from_vec(alloc: Global, held: Vec<Report>) -> Result<Reports, OutOfMemory>
        requires { AreHeld held.items }
        ensures { IfOk result (λ reports. reports ≡ admissions_of held.items) }
    {
        let stations = latest_index(alloc, held.as_slice())?;
        let keys = keys_of_reports(alloc, held.as_slice())?;
        Ok(Reports {
            held,
            stations,
            keys,
            room: None,
        })
    }

    /// Returns the reports in order of admission. Allocates nothing.
    pub fn as_slice(&self) -> &[Report]
        ensures value { result.now ≡ self.now.reports }
        ensures held { AreHeld result.now }
    {
        &self.held
    }

    /// Returns the number of reports.
    pub fn len(&self) -> usize
        ensures { result ≡ length self.now.reports }
    {
        self.held.len()
    }

    /// Returns true if there are no reports.
    pub fn is_empty(&self) -> bool
        ensures { result ≡ (length self.now.reports == 0) }
    {
        self.held.is_empty()
    }

    /// Reserves room for this report. If memory runs out, nothing changes.
    pub fn reserve(&mut self, report: &Report) -> Result<(), OutOfMemory>
        ensures ok { OnOk result (self.new ≡ reserved self.old report.now) }
        ensures err { OnErr result (self.new ≡ self.old) }
    {
        self.held.reserve(1)?;
        self.stations.reserve(1)?;
        self.keys.reserve(1)?;
        self.room = Some(Snapshot::of(report));
        Ok(())
    }

    /// Admits the report for which room is reserved, and uses up that room. Its number must be above all others.
    /// Allocates nothing.
    pub fn admit(&mut self, report: Report)
        requires room { self.old.room ≡ Some (room_for report) }
        requires above { All (λ held. held.id < report.id) self.old.reports }
        requires read { IsRead report }
        ensures { self.new ≡ admitted self.old report }
    {
        let place = self.len();
        let station = report.station().bytes();
        let before = places_at(&self.stations, station);
        let places = places_with(&self.held, before, &report, place);
        self.stations.put_reserved(station, places);
        self.keys.put_reserved(key_of(&report));
        self.held.push_reserved(report);
        self.room = None;
    }

    /// Returns the numbers of the reports that `sweep` would remove, in order.
    pub fn leaving(
        &self,
        alloc: Global,
        before: Minute,
        keep: &[u64],
    ) -> Result<Listed<u64>, OutOfMemory>
        ensures { IfOk result (λ ids. ids ≡ map (λ r. r.id) (leaving before keep.now self.now.reports)) }
    {
        leaving_ids(alloc, &self.held, &self.stations, before, keep)
    }

    /// Removes the reports that were observed or issued before `before`. The latest report of each kind and station
    /// stays, and so does a report whose number is in `keep`. Returns how many reports were removed. Gives up
    /// reserved room, and allocates nothing. Searches `keep` by binary search if it is sorted, and from its front
    /// otherwise.
    pub fn sweep(&mut self, before: Minute, keep: &[u64]) -> u64
        ensures reports { self.new ≡ with_swept before keep.now self.old }
        ensures count { result + length self.new.reports ≡ length self.old.reports }
        ensures latest { (kind : Kind) (station : List ℕ) → latest kind station self.new.reports
            ≡ latest kind station self.old.reports }
    {
        let count = self.len();
        sweep_held(&mut self.held, &self.stations, before, keep);
        index_latest(&mut self.stations, &self.held);
        keep_leading(&mut self.keys, &self.held);
        self.room = None;
        (count - self.held.len()) as u64
    }

    /// The latest METAR or SPECI of the station with these characters.
    #[tactic(auto, using(crate::proofs::LatestLaws::latest_is, crate::proofs::LatestLaws::latest_moments))]
    pub(crate) fn observation(&self, station: [u8; 4]) -> Option<&Report>
        ensures value { option_copied result ≡ latest_metar self.now.reports station }
        ensures latest { IsLatestMetar station self.now.reports (option_copied result) }
        ensures moments { IfSome (option_copied result) HasMoments }
    {
        latest(&self.held, &self.stations, Kind::Observation, station)
    }

    /// The latest TAF of the station with these characters.
    #[tactic(auto, using(crate::proofs::LatestLaws::latest_is, crate::proofs::LatestLaws::latest_moments))]
    pub(crate) fn forecast(&self, station: [u8; 4]) -> Option<&Report>
        ensures value { option_copied result ≡ latest_taf self.now.reports station }
        ensures latest { IsLatestTaf station self.now.reports (option_copied result) }
        ensures moments { IfSome (option_copied result) HasMoments }
    {
        latest(&self.held, &self.stations, Kind::Forecast, station)
    }

    /// The stations that have a report, in byte order. Allocates nothing.
    pub(crate) fn stations(&self) -> &[([u8; 4], Places)]
        ensures { keys_of result.now ≡ stations_of self.now.reports }
    {
        self.stations.as_slice()
    }

    /// Returns the latest METAR or SPECI of a station: the one with the latest moment of observation. If several have
    /// that moment, it is the one admitted last. Allocates nothing.
    pub fn latest_metar(&self, station: Station) -> Option<&Report>
        ensures value { option_copied result ≡ latest_metar self.now.reports station }
        ensures latest { IsLatestMetar station self.now.reports (option_copied result) }
        ensures moments { IfSome (option_copied result) HasMoments }
    {
        self.observation(station.bytes())
    }

    /// Returns the latest TAF of a station: the one with the latest moment of issue. If several have that moment, it
    /// is the one admitted last. Allocates nothing.
    pub fn latest_taf(&self, station: Station) -> Option<&Report>
        ensures value { option_copied result ≡ latest_taf self.now.reports station }
        ensures latest { IsLatestTaf station self.now.reports (option_copied result) }
        ensures moments { IfSome (option_copied result) HasMoments }
    {
        self.forecast(station.bytes())
    }

    /// Returns the reading of the station's latest METAR or SPECI.
    pub fn metar_latest(&self, station: Station) -> Option<&Metar>
        ensures value { option_copied result ≡ metar_latest self.now.reports station }
        ensures moments { IfSome (option_copied result) (λ metar. IsMoment metar.observed) }
    {
        self.latest_metar(station)?.read.metar()
    }

    /// Returns the reading of the station's latest TAF.
    pub fn taf_latest(&self, station: Station) -> Option<&Taf>
        ensures value { option_copied result ≡ taf_latest self.now.reports station }
        ensures moments { IfSome (option_copied result) TafHasMoments }
    {
        self.latest_taf(station)?.read.taf()
    }

    /// Returns the number of the first report with this canonical text that was observed or issued at that moment.
    /// Uses binary search, and allocates nothing.
    pub fn same(&self, text: &[u8], minute: Minute) -> Option<u64>
        ensures { result ≡ same_id self.now.reports text.now minute }
    {
        same_in(&self.held, &self.keys, text, minute)
    }
}
