ghost use Rattle.std.specs.Prelude.{◌≡◌, IfOk, IsTrue, codes};
ghost use Rattle.codes.specs.Groups.{groups_of, first_of as first_group};

use codes::{BadReport, Cond, Groups, ReportFault, Why, first_of};
use desk_io::OutOfMemory;
use desk_time::Minute;
use small_airline::DAY;
use std::alloc::Global;
use std::test::Fail;
use weather_reports::{Metar, Part, PartKind, Taf, TafState, read_metar, read_taf};

// 2025-03-12 17:00 and 17:25.
const RECEIPT: Minute = 29_029_980;

const LATER: Minute = 29_030_005;

const OBSERVED: &[u8] = b"METAR KJFK 121651Z 24008KT 10SM FEW250 12/M02 A3012 RMK AO2 SLP199";

const FORECAST: &[u8] = b"TAF KJFK 121720Z 1218/1324 24010KT P6SM BKN030";

const CHANGING: &[u8] =
    b"TAF KJFK 121120Z 1212/1318 24010KT P6SM SCT040 TEMPO 1215/1217 2SM OVC008 PROB30 1220/1222 1SM OVC005";

// The text, and then remarks of a letter each until it has so many bytes.
fn with_remarks(alloc: Global, text: &[u8], length: usize) -> Result<Vec<u8>, OutOfMemory> {
    let mut long = Vec::from_slice(alloc, text)?;
    long.extend_from_slice(b" RMK")?;
    for i in long.len()..length {
        long.push(if i % 2 == 0 { b' ' } else { b'A' })?;
    }
    Ok(long)
}

fn names(cond: Cond, ceiling: u32, vis: u32) -> bool {
    cond.ceiling == Some(ceiling) && cond.vis == Some(vis)
}

fn is_observed(metar: &Metar) -> bool {
    metar.station.bytes() == *b"KJFK"
        && metar.observed == DAY + 1011
        && names(metar.cond, 100_000, 16_093_440)
        && metar.unread == 0
        && !(metar.special || metar.corrected || metar.auto || metar.nil)
}

fn says_observed(alloc: Global, text: &[u8]) -> Result<bool, ReportFault> {
    Ok(is_observed(&read_metar(alloc, text, RECEIPT)?))
}

#[test]
fn an_observation_is_read(rt: HostRuntime) -> Result<(), Fail> {
    assert!(rt; says_observed(rt.alloc(), OBSERVED)?);
    Ok(())
}

fn is_part(part: &Part, kind: PartKind, from: Minute, to: Minute) -> bool {
    part.kind == kind && part.from == from && part.to == to
}

fn is_forecast(taf: &Taf) -> bool {
    taf.station.bytes() == *b"KJFK"
        && taf.state == TafState::Normal
        && taf.issued == DAY + 1040
        && taf.from == DAY + 1080
        && taf.to == DAY + 2880
        && !(taf.amended || taf.corrected)
}

// From the 12th at 18:00 to the end of the 13th.
fn has_one_part(taf: &Taf) -> bool {
    match taf.parts.as_slice() {
        [base] => {
            is_part(base, PartKind::Base, DAY + 1080, DAY + 2880)
                && names(base.cond, 3_000, 9_656_065)
        }
        _ => false,
    }
}

// From the 12th at 12:00 to the 13th at 18:00, with changes from 15:00 to 17:00 and from 20:00 to 22:00.
fn has_three_parts(taf: &Taf) -> bool {
    match taf.parts.as_slice() {
        [base, tempo, prob] => {
            is_part(base, PartKind::Base, DAY + 720, DAY + 2520)
                && is_part(tempo, PartKind::Tempo, DAY + 900, DAY + 1020)
                && is_part(prob, PartKind::Prob, DAY + 1200, DAY + 1320)
                && names(base.cond, 100_000, 9_656_065)
                && names(tempo.cond, 800, 3_218_688)
                && names(prob.cond, 500, 1_609_344)
        }
        _ => false,
    }
}

// Whether the first group of a text is TAF.
fn begins(alloc: Global, text: &[u8]) -> Result<bool, OutOfMemory>
    ensures { IfOk result (λ b. IsTrue b → first_group (groups_of text.now) ≡ codes "TAF") }
{
    let groups = Groups::of(alloc, text)?;
    Ok(first_of(groups.as_slice()) == b"TAF".as_slice())
}

// Whether a text of a forecast is read as one of which that test holds.
fn says(alloc: Global, text: &[u8], test: fn(&Taf) -> bool) -> Result<bool, ReportFault>
    requires { IsAlwaysCallable test }
{
    if !begins(alloc, text)? {
        return Ok(false);
    }
    Ok(test(&read_taf(alloc, text, LATER)?))
}

#[test]
fn forecasts_are_read(rt: HostRuntime) -> Result<(), Fail> {
    assert!(rt; says(rt.alloc(), FORECAST, is_forecast)?);
    assert!(rt; says(rt.alloc(), FORECAST, has_one_part)?);
    assert!(rt; says(rt.alloc(), CHANGING, has_three_parts)?);
    Ok(())
}

fn is_too_long(fault: Option<ReportFault>) -> bool {
    fault
        == Some(ReportFault::Bad(BadReport {
            group: 0,
            why: Why::TooLong,
        }))
}

fn observation_is_too_long(alloc: Global, text: &[u8]) -> bool {
    is_too_long(read_metar(alloc, text, RECEIPT).err())
}

fn forecast_is_too_long(alloc: Global, text: &[u8]) -> Result<bool, OutOfMemory> {
    Ok(begins(alloc, text)? && is_too_long(read_taf(alloc, text, LATER).err()))
}

#[test]
fn an_observation_of_2048_bytes_is_read_and_none_of_more(rt: HostRuntime) -> Result<(), Fail> {
    let alloc = rt.alloc();
    let longest = with_remarks(alloc, OBSERVED, 2_048)?;
    assert!(rt; longest.len() == 2_048 && says_observed(alloc, &longest)?);
    let longer = with_remarks(alloc, OBSERVED, 2_049)?;
    assert!(rt; longer.len() == 2_049 && observation_is_too_long(alloc, &longer));
    Ok(())
}

#[test]
fn a_forecast_of_2048_bytes_is_read_and_none_of_more(rt: HostRuntime) -> Result<(), Fail> {
    let alloc = rt.alloc();
    let longest = with_remarks(alloc, FORECAST, 2_048)?;
    assert!(rt; longest.len() == 2_048 && says(alloc, &longest, has_one_part)?);
    let longer = with_remarks(alloc, FORECAST, 2_049)?;
    assert!(rt; longer.len() == 2_049 && forecast_is_too_long(alloc, &longer)?);
    Ok(())
}
