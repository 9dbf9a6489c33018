ghost use Rattle.std.specs.Prelude.{◌≡◌};
ghost use Rattle.std.specs.Option.{option_copied};
ghost use Rattle.facts.specs.Same as spec;

use desk_io::{Copied, OutOfMemory, Station, Text};
use desk_time::Minute;
use std::alloc::Global;
use weather_reports::{Metar, Taf};

/// The greatest number of reports that may be held.
pub const HELD_LIMIT: usize = 200_000;

/// The reading of a report.
#[derive(Debug, Drop)]
pub enum Read {
    /// A METAR or SPECI.
    Metar(Metar),
    /// A TAF.
    Taf(Taf),
}

/// A received report that has no number yet: its canonical text, and its reading at its moment of receipt.
#[derive(Debug, Drop)]
pub struct Received {
    /// The canonical text: the groups, joined by single spaces. If the last group ends in `=`, another `=` follows.
    pub text: Text,
    /// The reading of the text.
    pub read: Read,
}

/// A received report with its number.
#[derive(Debug, Drop)]
pub struct Report {
    /// The report's number.
    pub id: u64,
    /// The moment of receipt.
    pub received: Minute,
    /// The canonical text, as in `Received`.
    pub text: Text,
    /// The reading of the text.
    pub read: Read,
}

impl Read {
    /// Returns the moment of observation or issue.
    pub fn minute(&self) -> Minute
        ensures { result ≡ spec.minute_of_read self.now }
    {
        match self {
            Read::Metar(metar) => metar.observed,
            Read::Taf(taf) => taf.issued,
        }
    }

    /// Returns the airport of the report.
    pub fn station(&self) -> Station
        ensures { result ≡ spec.station_of_read self.now }
    {
        match self {
            Read::Metar(metar) => metar.station,
            Read::Taf(taf) => taf.station,
        }
    }

    /// Returns the METAR or SPECI, if the report is one.
    pub fn metar(&self) -> Option<&Metar>
        ensures { option_copied result ≡ spec.metar_of_read self.now }
    {
        match self {
            Read::Metar(metar) => Some(metar),
            Read::Taf(_) => None,
        }
    }

    /// Returns the TAF, if the report is one.
    pub fn taf(&self) -> Option<&Taf>
        ensures { option_copied result ≡ spec.taf_of_read self.now }
    {
        match self {
            Read::Metar(_) => None,
            Read::Taf(taf) => Some(taf),
        }
    }
}

impl Report {
    /// Returns the moment of observation or issue.
    pub fn minute(&self) -> Minute
        ensures { result ≡ spec.minute_of_report self.now }
    {
        self.read.minute()
    }

    /// Returns the airport of the report.
    pub fn station(&self) -> Station
        ensures { result ≡ spec.station_of_report self.now }
    {
        self.read.station()
    }
}

impl Copied for Read {
    fn copy(&self, alloc: Global) -> Result<Read, OutOfMemory> {
        match self {
            Read::Metar(metar) => Ok(Read::Metar(*metar)),
            Read::Taf(taf) => Ok(Read::Taf(taf.copy(alloc)?)),
        }
    }
}

impl Copied for Report {
    fn copy(&self, alloc: Global) -> Result<Report, OutOfMemory> {
        Ok(Report {
            id: self.id,
            received: self.received,
            text: self.text.copy(alloc)?,
            read: self.read.copy(alloc)?,
        })
    }
}
