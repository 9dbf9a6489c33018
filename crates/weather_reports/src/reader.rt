ghost use Rattle.std.specs.Prelude.{◌≡◌, ◌≤◌, ◌<◌, ◌+◌, ◌-◌, ◌/◌, ◌^◌, [], drop, length, codes, Ok, IfOk, All};
ghost use Rattle.codes.specs.Groups.{groups_of};
ghost use Rattle.codes.specs.Groups.{first_of as first_group};
ghost use Rattle.codes.specs.Answers.{Answers};
ghost use Rattle.weather_reports.specs.Parts.{HasMoments};
ghost use Rattle.desk_time.specs.Limits.{IsMoment};
ghost use Rattle.weather_reports.specs.Forecast.{ReadsTaf};
ghost use Rattle.weather_reports.specs.TafReading as spec;
ghost use Rattle.weather_reports.specs.TafReading.{reading, taf_of, IsInReach, AreParts};

use crate::change::{is_amended, is_cancelled, is_corrected, is_modifier, is_nil};
use crate::forecast::{PartKind, Parts, Taf, TafState};
use crate::parts::{after_first, part_of, with_parts};
use codes::{
    BadReport, Group, Groups, REPORT_LIMIT, ReportFault, TOO_LONG, Why, first_of, numbered,
    period_in, time_of,
};
use desk_io::Station;
use desk_time::{FIRST, LAST, Minute};
use std::alloc::Global;

// The groups before the validity.
#[derive(Clone, Copy)]
struct Head {
    station: Station,
    issued: Minute,
    amended: bool,
    corrected: bool,
}

fn station_due(number: u32, groups: &[Group<'_>]) -> Result<Station, BadReport>
    ensures { result ≡ spec.station_due number groups.now }
{
    let [group, ..] = groups else {
        return Err(BadReport {
            group: number,
            why: Why::Missing,
        });
    };
    match Station::read(group.bytes()) {
        Some(station) => Ok(station),
        None => Err(BadReport {
            group: number,
            why: Why::NotStation,
        }),
    }
}

fn time_due(number: u32, groups: &[Group<'_>], first_day: u64) -> Result<Minute, BadReport>
    requires low { 10_000 ≤ first_day }
    requires high { first_day ≤ 48_000 }
    ensures value { result ≡ spec.time_due number groups.now first_day }
    ensures range { IfOk result IsMoment }
{
    let [group, ..] = groups else {
        return Err(BadReport {
            group: number,
            why: Why::Missing,
        });
    };
    numbered(number, time_of(group.bytes(), first_day))
}

fn forecast(head: &Head, state: TafState, from: Minute, to: Minute, parts: Parts) -> Taf
    ensures { result ≡ spec.forecast head.now state from to parts }
{
    Taf {
        station: head.station,
        issued: head.issued,
        from,
        to,
        amended: head.amended,
        corrected: head.corrected,
        state,
        parts,
    }
}

// Reads a forecast whose base begins at group `number`.
fn normal(
    alloc: Global,
    head: &Head,
    from: Minute,
    to: Minute,
    number: u32,
    groups: &[Group<'_>],
) -> Result<Taf, ReportFault>
    requires count { number + 3 + length groups.now < 2 ^ 32 }
    requires issued { IsMoment head.now.issued }
    requires from { IsMoment from }
    requires to { IsMoment to }
    requires order { from < to }
    ensures value { Answers result (spec.with_parts head.now from to number groups.now) }
    ensures range { IfOk result IsInReach }
{
    let mut parts = Parts::new(alloc);
    parts.push(part_of(PartKind::Base, from, to, number, groups)?)?;
    let parts = with_parts(parts, number, groups, head.issued / 1440 - 1, to)?;
    Ok(forecast(head, TafState::Normal, from, to, parts))
}

fn after_validity(
    alloc: Global,
    head: &Head,
    from: Minute,
    to: Minute,
    number: u32,
    groups: &[Group<'_>],
) -> Result<Taf, ReportFault>
    requires count { number + 3 + length groups.now < 2 ^ 32 }
    requires issued { IsMoment head.now.issued }
    requires from { IsMoment from }
    requires to { IsMoment to }
    requires order { from < to }
    ensures value { Answers result (spec.after_validity head.now from to number groups.now) }
    ensures range { IfOk result IsInReach }
{
    if is_cancelled(first_of(groups)) {
        return Ok(forecast(head, TafState::Cancelled, from, to, Parts::new(alloc)));
    }
    normal(alloc, head, from, to, number, groups)
}

fn taf_after_time(
    alloc: Global,
    head: &Head,
    number: u32,
    groups: &[Group<'_>],
) -> Result<Taf, ReportFault>
    requires count { number + 4 + length groups.now < 2 ^ 32 }
    requires issued { IsMoment head.now.issued }
    ensures value { Answers result (spec.after_time head.now number groups.now) }
    ensures range { IfOk result IsInReach }
{
    if is_nil(first_of(groups)) {
        return Ok(forecast(
            head,
            TafState::Nil,
            head.issued,
            head.issued,
            Parts::new(alloc),
        ));
    }
    let (from, to) = period_in(number, groups, head.issued / 1440 - 1)?;
    after_validity(alloc, head, from, to, number + 1, after_first(groups))
}

fn are_amended(modifiers: &[Group<'_>]) -> bool
    ensures { result ≡ spec.are_amended modifiers.now }
{
    modifiers
        .iter()
        .any(|modifier| is_amended(modifier.bytes()))
}

fn are_corrected(modifiers: &[Group<'_>]) -> bool
    ensures { result ≡ spec.are_corrected modifiers.now }
{
    modifiers
        .iter()
        .any(|modifier| is_corrected(modifier.bytes()))
}

fn head_of(modifiers: &[Group<'_>], station: Station, issued: Minute) -> Head
    ensures { result ≡ spec.head_of modifiers.now station issued }
{
    Head {
        station,
        issued,
        amended: are_amended(modifiers),
        corrected: are_corrected(modifiers),
    }
}

// Reads the groups after the station, numbered from `number`.
fn taf_after_station(
    alloc: Global,
    modifiers: &[Group<'_>],
    station: Station,
    number: u32,
    groups: &[Group<'_>],
    first_day: u64,
) -> Result<Taf, ReportFault>
    requires count { number + 5 + length groups.now < 2 ^ 32 }
    requires low { 10_000 ≤ first_day }
    requires high { first_day ≤ 48_000 }
    ensures value { Answers result (spec.after_station modifiers.now station number groups.now first_day) }
    ensures range { IfOk result IsInReach }
{
    let issued = time_due(number, groups, first_day)?;
    let head = head_of(modifiers, station, issued);
    taf_after_time(alloc, &head, number + 1, after_first(groups))
}

// Reads the groups after `AMD` and `COR`, numbered from `number`.
fn after_modifiers(
    alloc: Global,
    modifiers: &[Group<'_>],
    number: u32,
    groups: &[Group<'_>],
    first_day: u64,
) -> Result<Taf, ReportFault>
    requires count { number + 6 + length groups.now < 2 ^ 32 }
    requires low { 10_000 ≤ first_day }
    requires high { first_day ≤ 48_000 }
    ensures value { Answers result (spec.after_modifiers modifiers.now number groups.now first_day) }
    ensures range { IfOk result IsInReach }
{
    let station = station_due(number, groups)?;
    taf_after_station(
        alloc,
        modifiers,
        station,
        number + 1,
        after_first(groups),
        first_day,
    )
}

// How many of the leading groups are `AMD` or `COR`.
fn modifier_count(groups: &[Group<'_>]) -> usize
    ensures value { result ≡ spec.modifier_count groups.now }
    ensures within { result ≤ length groups.now }
{
    for (i, group) in groups.iter().enumerate() {
        if !is_modifier(group.bytes()) {
            return i;
        }
    }
    groups.len()
}

#[tactic(auto, unfolding(crate::specs::TafReading::reading))]
fn taf_reading_in(alloc: Global, groups: &[Group<'_>], receipt: Minute) -> Result<Taf, ReportFault>
    requires count { length groups.now ≤ 2049 }
    requires low { FIRST ≤ receipt }
    requires high { receipt ≤ LAST }
    ensures value { Answers result (reading groups.now receipt) }
    ensures range { IfOk result IsInReach }
{
    let words = after_first(groups);
    let count = modifier_count(words);
    after_modifiers(
        alloc,
        &words[..count],
        2 + count as u32,
        &words[count..],
        receipt / 1440 - 3,
    )
}

/// Reads the groups of a TAF received at `receipt`, as `read_taf` reads its text.
pub fn taf_in(alloc: Global, groups: &[Group<'_>], receipt: Minute) -> Result<Taf, ReportFault>
    requires count { length groups.now ≤ 2049 }
    requires low { FIRST ≤ receipt }
    requires high { receipt ≤ LAST }
    ensures value { Answers result (reading groups.now receipt) }
    ensures range { IfOk result IsInReach }
    ensures parts { IfOk result (λ taf. AreParts taf.state taf.from taf.to taf.parts) }
    ensures report { first_group groups.now ≡ codes "TAF" → IfOk result (ReadsTaf groups.now receipt) }
    ensures read { (taf : Taf) → ReadsTaf groups.now receipt taf → Answers result (Ok taf) }
{
    taf_reading_in(alloc, groups, receipt)
}

/// Reads the text of a TAF received at `receipt`. Its first group must be `TAF`. The day of issue is one of the five
/// days that begin three days before the day of receipt. Every other day is one of the five that begin one day before
/// the day of issue. `Bad` names the first group that can't be read. A text of more than 2,048 bytes is `TooLong` at
/// group 0.
#[tactic(auto, unfolding(crate::specs::TafReading::taf_of))]
pub fn read_taf(alloc: Global, text: &[u8], receipt: Minute) -> Result<Taf, ReportFault>
    requires forecast { first_group (groups_of text.now) ≡ codes "TAF" }
    requires low { FIRST ≤ receipt }
    requires high { receipt ≤ LAST }
    ensures value { Answers result (taf_of text.now receipt) }
    ensures range { IfOk result IsInReach }
    ensures parts { IfOk result (λ taf. AreParts taf.state taf.from taf.to taf.parts) }
    ensures report { IfOk result (ReadsTaf (groups_of text.now) receipt) }
    ensures read { length text.now ≤ 2_048 → (taf : Taf) → ReadsTaf (groups_of text.now) receipt taf
        → Answers result (Ok taf) }
{
    if text.len() > REPORT_LIMIT {
        return Err(ReportFault::Bad(TOO_LONG));
    }
    let groups = Groups::of(alloc, text)?;
    taf_in(alloc, groups.as_slice(), receipt)
}
