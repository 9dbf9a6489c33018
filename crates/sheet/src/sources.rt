ghost use Rattle.std.specs.Prelude.{◌≡◌, ◌+◌, ◌∷◌};
ghost use Rattle.std.specs.Option.{option_copied};
ghost use Rattle.weather_window.specs.Values as values;
ghost use Rattle.sheet.specs.Circumstances.{case_by};
ghost use Rattle.sheet.specs.Sources as spec;
ghost use Rattle.sheet.specs.Sources.{element_of};

use crate::circumstances::Circumstances;
use crate::lines::Source;
use codes::Cond;
use desk_io::Station;
use desk_time::Minute;
use facts::Report;
use weather_reports::{Metar, Part, PartKind, Taf, TafState};

/// An element of the weather.
#[derive(Clone, Copy)]
pub(crate) enum Which {
    Ceiling,
    Visibility,
}

/// A value, and what gives it.
#[derive(Clone, Copy)]
pub(crate) struct Named {
    pub value: u32,
    pub source: Source,
}

/// The values of one element in the parts of a forecast so far.
#[derive(Clone, Copy)]
struct Held {
    /// The value that lasts until another part replaces it.
    lasting: Option<Named>,
    /// The least value of changes in progress and temporary parts.
    passing: Option<Named>,
}

impl Which {
    fn of(self, cond: Cond) -> Option<u32>
        ensures { result ≡ element_of self cond }
    {
        match self {
            Which::Ceiling => cond.ceiling,
            Which::Visibility => cond.vis,
        }
    }
}

fn named_by(value: Option<u32>, source: Source) -> Option<Named>
    ensures { result ≡ spec.named_by value source }
{
    match value {
        None => None,
        Some(value) => Some(Named { value, source }),
    }
}

// Returns the lesser of two values, and the first if they are equal.
fn lesser_named(first: Option<Named>, second: Option<Named>) -> Option<Named>
    ensures { result ≡ spec.lesser_named first second }
{
    match (first, second) {
        (Some(a), Some(b)) => { if b.value < a.value { second } else { first } }
        (Some(_), None) => first,
        (None, _) => second,
    }
}

fn or_named(first: Option<Named>, second: Option<Named>) -> Option<Named>
    ensures { result ≡ spec.or_named first second }
{
    match first {
        None => second,
        Some(_) => first,
    }
}

// Returns true if the part has replaced all earlier parts.
fn has_replaced(part: &Part, minute: Minute) -> bool
    ensures { result ≡ values.has_replaced minute part.now }
{
    match part.kind {
        PartKind::Base | PartKind::From => part.from <= minute,
        PartKind::Becoming | PartKind::Tempo | PartKind::Prob => false,
    }
}

// Returns true if the part is a finished change.
fn has_become(part: &Part, minute: Minute) -> bool
    ensures { result ≡ values.has_become minute part.now }
{
    match part.kind {
        PartKind::Becoming => part.to <= minute,
        PartKind::Base | PartKind::From | PartKind::Tempo | PartKind::Prob => false,
    }
}

// Returns true if the part is a change in progress.
fn is_changing(part: &Part, minute: Minute) -> bool
    ensures { result ≡ values.is_changing minute part.now }
{
    match part.kind {
        PartKind::Becoming => part.from <= minute && minute < part.to,
        PartKind::Base | PartKind::From | PartKind::Tempo | PartKind::Prob => false,
    }
}

// Returns true if the part is temporary and within its period.
fn may_hold(part: &Part, minute: Minute) -> bool
    ensures { result ≡ values.may_hold minute part.now }
{
    match part.kind {
        PartKind::Tempo | PartKind::Prob => part.from <= minute && minute <= part.to,
        PartKind::Base | PartKind::From | PartKind::Becoming => false,
    }
}

fn and_named(replaces: bool, becomes: bool, passes: bool, held: Held, named: Option<Named>) -> Held
    ensures { result ≡ spec.and_named replaces becomes passes held named }
{
    if replaces {
        Held {
            lasting: named,
            passing: None,
        }
    } else if becomes {
        Held {
            lasting: or_named(named, held.lasting),
            passing: held.passing,
        }
    } else if passes {
        Held {
            lasting: held.lasting,
            passing: lesser_named(held.passing, named),
        }
    } else {
        held
    }
}

fn part_source(report: u64, part: usize) -> Source
    ensures { result ≡ spec.by_part report part }
{
    Source {
        report,
        part: Some(part),
    }
}

// Reads one more part.
fn with_part(
    which: Which,
    minute: Minute,
    report: u64,
    number: usize,
    held: Held,
    part: &Part,
) -> Held
    ensures { result ≡ spec.with_part (element_of which) minute report number held part.now }
{
    let passes = is_changing(part, minute) || may_hold(part, minute);
    let named = named_by(which.of(part.cond), part_source(report, number));
    and_named(
        has_replaced(part, minute),
        has_become(part, minute),
        passes,
        held,
        named,
    )
}

// Returns the least value of a first part and the parts after it.
fn after_first(
    which: Which,
    minute: Minute,
    report: u64,
    first: &Part,
    after: &[Part],
) -> Option<Named>
    ensures { result ≡ spec.parts_named (element_of which) minute report (first.now ∷ after.now) }
{
    let named = named_by(which.of(first.cond), part_source(report, 1));
    let mut held = Held {
        lasting: named,
        passing: None,
    };
    for (i, part) in after.iter().enumerate() {
        held = with_part(which, minute, report, i + 2, held, part);
    }
    lesser_named(held.lasting, held.passing)
}

fn parts_named(which: Which, minute: Minute, report: u64, parts: &[Part]) -> Option<Named>
    ensures { result ≡ spec.parts_named (element_of which) minute report parts.now }
{
    match parts {
        [] => None,
        [first, after @ ..] => after_first(which, minute, report, first, after),
    }
}

fn is_normal(state: TafState) -> bool
    ensures { result ≡ values.is_normal state }
{
    match state {
        TafState::Normal => true,
        TafState::Nil | TafState::Cancelled => false,
    }
}

fn taf_named(which: Which, minute: Minute, report: u64, taf: Option<&Taf>) -> Option<Named>
    ensures { result ≡ spec.taf_named (element_of which) minute report (option_copied taf.entry) }
{
    match taf {
        Some(taf) if is_normal(taf.state) && taf.from <= minute && minute <= taf.to => parts_named(
            which,
            minute,
            report,
            taf.parts.as_slice(),
        ),
        _ => None,
    }
}

fn is_held(observed: Minute, hold: u32, minute: Minute) -> bool
    ensures { result ≡ values.is_within observed (observed + hold) minute }
{
    observed <= minute && minute - observed <= u64::from(hold)
}

fn metar_named(
    which: Which,
    hold: u32,
    minute: Minute,
    report: u64,
    metar: Option<&Metar>,
) -> Option<Named>
    ensures { result ≡ spec.metar_named (element_of which) hold minute report (option_copied metar.entry) }
{
    match metar {
        Some(metar) if !metar.nil && is_held(metar.observed, hold, minute) => named_by(
            which.of(metar.cond),
            Source { report, part: None },
        ),
        _ => None,
    }
}

fn forecast_named(which: Which, minute: Minute, report: Option<&Report>) -> Option<Named>
    ensures { result ≡ spec.forecast_named (element_of which) minute (option_copied report.entry) }
{
    match report {
        None => None,
        Some(report) => taf_named(which, minute, report.id, report.read.taf()),
    }
}

fn report_named(which: Which, hold: u32, minute: Minute, report: Option<&Report>) -> Option<Named>
    ensures { result ≡ spec.report_named (element_of which) hold minute (option_copied report.entry) }
{
    match report {
        None => None,
        Some(report) => metar_named(which, hold, minute, report.id, report.read.metar()),
    }
}

fn source_of(named: Option<Named>) -> Option<Source>
    ensures { result ≡ spec.source_of named }
{
    match named {
        None => None,
        Some(named) => Some(named.source),
    }
}

impl<'a> Circumstances<'a> {
    fn named_at(&self, which: Which, station: Station, minute: Minute) -> Option<Named>
        ensures { result ≡ spec.named_at (element_of which) (case_by self.now).grounds station minute }
    {
        let facts = self.world.facts;
        let hold = self.world.tables.settings().hold_minutes;
        let forecast = forecast_named(which, minute, facts.latest_taf(station));
        let report = report_named(which, hold, minute, facts.latest_metar(station));
        lesser_named(forecast, report)
    }

    /// Returns what gives the controlling value of an element at a minute, if something does.
    pub(crate) fn source_at(&self, which: Which, station: Station, minute: Minute) -> Option<Source>
        ensures { result ≡ spec.source_at (element_of which) (case_by self.now).grounds station minute }
    {
        source_of(self.named_at(which, station, minute))
    }
}
