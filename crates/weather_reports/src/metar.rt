ghost use Rattle.std.specs.Prelude.{◌≡◌, ◌↔◌, ◌≤◌, ◌<◌, ◌+◌, ◌-◌, ◌/◌, ◌^◌, length, codes, Ok, IfOk};
ghost use Rattle.weather_reports.specs.MetarReading as spec;
ghost use Rattle.codes.specs.Answers.{Answers};
ghost use Rattle.codes.specs.Groups.{groups_of};
ghost use Rattle.weather_reports.specs.MetarReading.{reading, metar_of};
ghost use Rattle.weather_reports.specs.MetarReport.{ReadsMetar};

use crate::change::is_nil;
use codes::{
    BadReport, Cond, Form, Group, Groups, REPORT_LIMIT, ReportFault, Stretch, TOO_LONG, Why,
    first_of, stretch_in, time_of,
};
use desk_io::Station;
use desk_time::{FIRST, LAST, Minute};
use std::alloc::Global;

/// The reading of a METAR or SPECI.
#[derive(Clone, Copy, Debug, PartialEq, Eq)]
pub struct Metar {
    /// Whether the report is a SPECI.
    pub special: bool,
    /// The airport that was observed.
    pub station: Station,
    /// The moment of observation.
    pub observed: Minute,
    /// Whether it corrects an earlier report (`COR`).
    pub corrected: bool,
    /// Whether it is fully automated (`AUTO`).
    pub auto: bool,
    /// Whether it reports nothing (`NIL`).
    pub nil: bool,
    /// The condition that its body reports. Unknown in a `NIL` report.
    pub cond: Cond,
    /// How many groups of its body have class `Unread`.
    pub unread: u32,
}

// The groups before the body.
#[derive(Clone, Copy)]
struct Head {
    special: bool,
    corrected: bool,
    station: Station,
    observed: Minute,
}

fn is_speci(group: &[u8]) -> bool
    ensures { result ≡ spec.is_speci group.now }
{
    group == b"SPECI".as_slice()
}

fn is_cor(group: &[u8]) -> bool
    ensures { result ≡ spec.is_cor group.now }
{
    group == b"COR".as_slice()
}

fn after_word<'a, 'b>(groups: &'b [Group<'a>]) -> &'b [Group<'a>]
    ensures value { result.now ≡ spec.after_word groups.now }
    ensures rest { length result.now ≤ length groups.now }
{
    match groups {
        [first, rest @ ..] if first.bytes() == b"METAR".as_slice() || is_speci(first.bytes()) =>
            rest,
        _ => groups,
    }
}

fn after_cor<'a, 'b>(groups: &'b [Group<'a>]) -> &'b [Group<'a>]
    ensures value { result.now ≡ spec.after spec.is_cor groups.now }
    ensures rest { length result.now ≤ length groups.now }
{
    match groups {
        [first, rest @ ..] if is_cor(first.bytes()) => rest,
        _ => groups,
    }
}

fn ends_body(group: &[u8]) -> bool
    ensures { result ≡ spec.ends_body group.now }
{
    group == b"RMK".as_slice()
        || group == b"NOSIG".as_slice()
        || group == b"TEMPO".as_slice()
        || group == b"BECMG".as_slice()
}

fn body_of<'a, 'b>(groups: &'b [Group<'a>]) -> &'b [Group<'a>]
    ensures value { result.now ≡ spec.body_of groups.now }
    ensures within { length result.now ≤ length groups.now }
{
    for (i, group) in groups.iter().enumerate() {
        if ends_body(group.bytes()) {
            return &groups[..i];
        }
    }
    groups
}

fn has(word: &[u8], groups: &[Group<'_>]) -> bool
    ensures { result ≡ spec.has word.now groups.now }
{
    groups.iter().any(|group| group.bytes() == word)
}

fn bad_at(count: u32, rest: &[Group<'_>], why: Why) -> BadReport
    requires small { count ≤ 2049 }
    requires within { length rest.now ≤ count }
    ensures { result ≡ spec.bad_at count rest.now why }
{
    let group = count + 1 - rest.len() as u32;
    BadReport { group, why }
}

fn nil_report(head: Head) -> Metar
    ensures { result ≡ spec.nil_report head }
{
    Metar {
        special: head.special,
        station: head.station,
        observed: head.observed,
        corrected: head.corrected,
        auto: false,
        nil: true,
        cond: Cond::UNKNOWN,
        unread: 0,
    }
}

fn report_with(head: Head, body: &[Group<'_>], stretch: Stretch) -> Metar
    ensures { result ≡ spec.report_with head body.now stretch }
{
    Metar {
        special: head.special,
        station: head.station,
        observed: head.observed,
        corrected: head.corrected || has(b"COR", body),
        auto: has(b"AUTO", body),
        nil: false,
        cond: stretch.cond,
        unread: stretch.unread,
    }
}

fn after_time(count: u32, rest: &[Group<'_>], head: Head) -> Result<Metar, BadReport>
    requires small { count ≤ 2049 }
    requires within { length rest.now ≤ count }
    ensures value { result ≡ spec.after_time count rest.now head }
    ensures observed { IfOk result (λ m. m.observed ≡ head.observed) }
{
    if is_nil(first_of(rest)) {
        return Ok(nil_report(head));
    }
    let body = body_of(rest);
    let stretch = stretch_in(Form::Report, count + 1 - rest.len() as u32, body)?;
    Ok(report_with(head, body, stretch))
}

fn after_station(
    count: u32,
    rest: &[Group<'_>],
    special: bool,
    corrected: bool,
    station: Station,
    first_day: u64,
) -> Result<Metar, BadReport>
    requires small { count ≤ 2049 }
    requires within { length rest.now ≤ count }
    requires low { 10_000 ≤ first_day }
    requires high { first_day ≤ 48_000 }
    ensures value { result ≡ spec.after_station count rest.now special corrected station first_day }
    ensures range { IfOk result (λ m. (FIRST ≤ m.observed) × (m.observed ≤ LAST)) }
{
    let [time, body @ ..] = rest else {
        return Err(bad_at(count, rest, Why::Missing));
    };
    match time_of(time.bytes(), first_day) {
        Err(why) => Err(bad_at(count, rest, why)),
        Ok(observed) => {
            let head = Head {
                special,
                corrected,
                station,
                observed,
            };
            after_time(count, body, head)
        }
    }
}

fn from_station(
    count: u32,
    rest: &[Group<'_>],
    special: bool,
    corrected: bool,
    first_day: u64,
) -> Result<Metar, BadReport>
    requires small { count ≤ 2049 }
    requires within { length rest.now ≤ count }
    requires low { 10_000 ≤ first_day }
    requires high { first_day ≤ 48_000 }
    ensures value { result ≡ spec.from_station count rest.now special corrected first_day }
    ensures range { IfOk result (λ m. (FIRST ≤ m.observed) × (m.observed ≤ LAST)) }
{
    let [group, after @ ..] = rest else {
        return Err(bad_at(count, rest, Why::Missing));
    };
    match Station::read(group.bytes()) {
        None => Err(bad_at(count, rest, Why::NotStation)),
        Some(station) => after_station(count, after, special, corrected, station, first_day),
    }
}

#[tactic(auto, unfolding(crate::specs::MetarReading::reading))]
fn reading_in(groups: &[Group<'_>], receipt: Minute) -> Result<Metar, BadReport>
    requires count { length groups.now ≤ 2049 }
    requires low { FIRST ≤ receipt }
    requires high { receipt ≤ LAST }
    ensures value { result ≡ reading groups.now receipt }
    ensures range { IfOk result (λ m. (FIRST ≤ m.observed) × (m.observed ≤ LAST)) }
{
    let after_word = after_word(groups);
    let rest = after_cor(after_word);
    let special = is_speci(first_of(groups));
    let corrected = is_cor(first_of(after_word));
    from_station(
        groups.len() as u32,
        rest,
        special,
        corrected,
        receipt / 1440 - 3,
    )
}

/// Reads the groups of a METAR or SPECI received at `receipt`, as `read_metar` reads its text. Allocates nothing.
pub fn metar_in(groups: &[Group<'_>], receipt: Minute) -> Result<Metar, BadReport>
    requires count { length groups.now ≤ 2049 }
    requires low { FIRST ≤ receipt }
    requires high { receipt ≤ LAST }
    ensures value { result ≡ reading groups.now receipt }
    ensures range { IfOk result (λ m. (FIRST ≤ m.observed) × (m.observed ≤ LAST)) }
    ensures report { (m : Metar) → ReadsMetar groups.now receipt m ↔ (result ≡ Ok m) }
{
    reading_in(groups, receipt)
}

/// Reads the text of a METAR or SPECI received at `receipt`. The day of observation is one of the five days that
/// begin three days before the day of receipt. `Bad` names the first group that can't be read. A text of more than
/// 2,048 bytes is `TooLong` at group 0.
#[tactic(auto, unfolding(crate::specs::MetarReading::metar_of))]
pub fn read_metar(alloc: Global, text: &[u8], receipt: Minute) -> Result<Metar, ReportFault>
    requires low { FIRST ≤ receipt }
    requires high { receipt ≤ LAST }
    ensures value { Answers result (metar_of text.now receipt) }
    ensures range { IfOk result (λ m. (FIRST ≤ m.observed) × (m.observed ≤ LAST)) }
    ensures report { IfOk result (λ m. ReadsMetar (groups_of text.now) receipt m) }
    ensures read { length text.now ≤ 2_048 → (m : Metar) → ReadsMetar (groups_of text.now) receipt m
        → Answers result (Ok m) }
{
    if text.len() > REPORT_LIMIT {
        return Err(ReportFault::Bad(TOO_LONG));
    }
    let groups = Groups::of(alloc, text)?;
    match metar_in(groups.as_slice(), receipt) {
        Ok(metar) => Ok(metar),
        Err(bad) => Err(ReportFault::Bad(bad)),
    }
}
