ghost use Rattle.std.specs.Prelude.{◌≡◌, ◌≤◌, ◌<◌, ◌+◌, ◌^◌, [], drop, length, All, IfOk};
ghost use Rattle.weather_reports.specs.Parts as spec;
ghost use Rattle.codes.specs.Answers.{Answers};
ghost use Rattle.weather_reports.specs.Parts.{HasMoments, onto};
ghost use Rattle.desk_time.specs.Limits.{IsMoment};

use crate::change::{Change, change_after, change_of, is_remarks, is_tempo};
use crate::forecast::{Part, PartKind, Parts};
use codes::{
    BadReport, Form, Group, ReportFault, Why, cond_in, end_of, first_of, numbered, period_in,
};
use desk_time::Minute;

fn ends_stretch(group: &[u8]) -> bool
    ensures { result ≡ spec.ends_stretch group.now }
{
    is_remarks(group) || change_of(group).is_some()
}

// The groups before the next change word, the remarks or the end.
fn stretch<'a, 'b>(groups: &'b [Group<'a>]) -> &'b [Group<'a>]
    ensures value { result.now ≡ spec.stretch groups.now }
    ensures within { length result.now ≤ length groups.now }
{
    for (i, group) in groups.iter().enumerate() {
        if ends_stretch(group.bytes()) {
            return &groups[..i];
        }
    }
    groups
}

// Reads a part whose groups begin at number `number`.
pub(crate) fn part_of(
    kind: PartKind,
    from: Minute,
    to: Minute,
    number: u32,
    groups: &[Group<'_>],
) -> Result<Part, BadReport>
    requires count { number + length groups.now < 2 ^ 32 }
    requires from { IsMoment from }
    requires to { IsMoment to }
    ensures value { result ≡ spec.part_of kind from to number groups.now }
    ensures moments { IfOk result HasMoments }
{
    let cond = cond_in(Form::Forecast, number, stretch(groups))?;
    Ok(Part {
        kind,
        from,
        to,
        cond,
    })
}

// The groups after the first one.
pub(crate) fn after_first<'a, 'b>(groups: &'b [Group<'a>]) -> &'b [Group<'a>]
    ensures value { result.now ≡ drop 1 groups.now }
    ensures within { length result.now ≤ length groups.now }
{
    match groups {
        [_, rest @ ..] => rest,
        [] => groups,
    }
}

fn part_during(
    kind: PartKind,
    number: u32,
    groups: &[Group<'_>],
    first_day: u64,
) -> Result<Part, BadReport>
    requires count { number + 1 + length groups.now < 2 ^ 32 }
    requires low { 10_000 ≤ first_day }
    requires high { first_day ≤ 48_000 }
    ensures value { result ≡ spec.part_during kind number groups.now first_day }
    ensures moments { IfOk result HasMoments }
{
    let (from, to) = period_in(number, groups, first_day)?;
    part_of(kind, from, to, number + 1, after_first(groups))
}

fn part_from(
    digits: [u8; 6],
    number: u32,
    groups: &[Group<'_>],
    first_day: u64,
    until: Minute,
) -> Result<Part, BadReport>
    requires count { number + 1 + length groups.now < 2 ^ 32 }
    requires low { 10_000 ≤ first_day }
    requires high { first_day ≤ 48_000 }
    requires until { IsMoment until }
    ensures value { result ≡ spec.part_from digits number groups.now first_day until }
    ensures moments { IfOk result HasMoments }
{
    let from = numbered(number, end_of(digits, first_day))?;
    part_of(PartKind::From, from, until, number + 1, groups)
}

fn part_likely(number: u32, groups: &[Group<'_>], first_day: u64) -> Result<Part, BadReport>
    requires count { number + 2 + length groups.now < 2 ^ 32 }
    requires low { 10_000 ≤ first_day }
    requires high { first_day ≤ 48_000 }
    ensures value { result ≡ spec.part_likely number groups.now first_day }
    ensures moments { IfOk result HasMoments }
{
    if is_tempo(first_of(groups)) {
        part_during(PartKind::Prob, number + 1, after_first(groups), first_day)
    } else {
        part_during(PartKind::Prob, number, groups, first_day)
    }
}

// Reads the part that a change word at group `number` begins. The groups `after` follow that word.
fn part_at(
    change: Change,
    number: u32,
    after: &[Group<'_>],
    first_day: u64,
    until: Minute,
) -> Result<Part, BadReport>
    requires count { number + 3 + length after.now < 2 ^ 32 }
    requires low { 10_000 ≤ first_day }
    requires high { first_day ≤ 48_000 }
    requires until { IsMoment until }
    ensures value { result ≡ spec.part_at change number after.now first_day until }
    ensures moments { IfOk result HasMoments }
{
    match change {
        Change::At(digits) => part_from(digits, number, after, first_day, until),
        Change::During(kind) => part_during(kind, number + 1, after, first_day),
        Change::Chance => part_likely(number + 1, after, first_day),
        Change::Misshaped => Err(BadReport {
            group: number,
            why: Why::BadPeriod,
        }),
    }
}

// Appends the part of a change word at group `number`, if there is one.
fn and_change(
    mut parts: Parts,
    change: Option<Change>,
    number: u32,
    after: &[Group<'_>],
    first_day: u64,
    until: Minute,
) -> Result<Parts, ReportFault>
    requires count { number + 3 + length after.now < 2 ^ 32 }
    requires low { 10_000 ≤ first_day }
    requires high { first_day ≤ 48_000 }
    requires until { IsMoment until }
    requires before { All HasMoments parts }
    ensures value { Answers result (spec.and_change parts change number after.now first_day until) }
    ensures moments { IfOk result (λ all. All HasMoments all) }
{
    if let Some(change) = change {
        parts.push(part_at(change, number, after, first_day, until)?)?;
    }
    Ok(parts)
}

// Appends the parts of all change words before the remarks. The first group has number `number`.
#[tactic(auto, using(crate::proofs::PartLaws::parts_step))]
pub(crate) fn with_parts(
    mut parts: Parts,
    number: u32,
    groups: &[Group<'_>],
    first_day: u64,
    until: Minute,
) -> Result<Parts, ReportFault>
    requires count { number + 3 + length groups.now < 2 ^ 32 }
    requires low { 10_000 ≤ first_day }
    requires high { first_day ≤ 48_000 }
    requires until { IsMoment until }
    requires before { All HasMoments parts }
    ensures value { Answers result (onto parts (spec.parts_of [] number groups.now first_day until)) }
    ensures moments { IfOk result (λ all. All HasMoments all) }
{
    let mut before: &[u8] = b"";
    let mut rest = groups;
    let mut at = number;
    while let [group, after @ ..] = rest {
        let group = group.bytes();
        if is_remarks(group) {
            break;
        }
        let change = change_after(before, group);
        parts = and_change(parts, change, at, after, first_day, until)?;
        before = group;
        rest = after;
        at += 1;
    }
    Ok(parts)
}
