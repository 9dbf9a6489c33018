ghost use Rattle.std.specs.Prelude.{◌≡◌};
ghost use Rattle.codes.specs.declared.fault.ReportFault.TheVariants.{OutOfMemory as ReportMemory, Bad as ReportBad};

use desk_io::OutOfMemory;

/// The largest text of a report, in bytes.
pub const REPORT_LIMIT: usize = 2048;

/// The fault of a text that has more than `REPORT_LIMIT` bytes.
pub const TOO_LONG: BadReport = BadReport {
    group: 0,
    why: Why::TooLong,
};

/// Why a report can't be read.
#[derive(Clone, Copy, Debug, PartialEq, Eq)]
pub enum Why {
    /// The text has more than 2,048 bytes.
    TooLong,
    /// A required group is missing.
    Missing,
    /// A group isn't a station.
    NotStation,
    /// A group isn't a time, or its time isn't valid.
    NotTime,
    /// The day of the month isn't among the five days in reach, or the moment isn't from 2000 to 2099.
    DayOutOfReach,
    /// A group ends in `SM`, doesn't begin with `/`, and isn't a visibility.
    BadVisibility,
    /// A group begins with `FEW`, `SCT`, `BKN`, `OVC` or `VV`, and isn't a layer or vertical visibility.
    BadSky,
    /// A forecast's period or change word is malformed or invalid, or the body of a METAR or SPECI contains a period.
    BadPeriod,
}

/// The first group of a report that can't be read.
#[derive(Clone, Copy, Debug, PartialEq, Eq)]
pub struct BadReport {
    /// The group's number, from 1. A missing group has the number after the last group, and a text that is too long
    /// has 0.
    pub group: u32,
    /// Why the group can't be read.
    pub why: Why,
}

/// Why a reader returned no reading.
#[derive(Clone, Copy, Debug, PartialEq, Eq)]
pub enum ReportFault {
    /// The report can't be read.
    Bad(BadReport),
    /// Memory ran out.
    OutOfMemory,
}

impl From<OutOfMemory> for ReportFault {
    ghost from_gives = { λ _ e. e ≡ ReportMemory };

    fn from(_: OutOfMemory) -> Self {
        ReportFault::OutOfMemory
    }
}

impl From<BadReport> for ReportFault {
    ghost from_gives = { λ bad e. e ≡ ReportBad bad };

    fn from(bad: BadReport) -> Self {
        ReportFault::Bad(bad)
    }
}

/// The kind of report to which groups belong.
#[derive(Clone, Copy, Debug, PartialEq, Eq)]
pub enum Form {
    /// A METAR or SPECI. Its body contains no period.
    Report,
    /// A TAF.
    Forecast,
}
