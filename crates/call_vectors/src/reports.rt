ghost use Rattle.std.specs.Prelude.{◌≤◌, ◌-◌, IfSome};

use crate::fields::{bytes_at, is_written, number_at, text_at};
use crate::written::{cond_text, fault_text, metar_text, taf_text};
use codes::{Groups, ReportFault};
use desk_io::OutOfMemory;
use desk_time::{BadDay, FIRST, LAST, Minute, SHOWN_LAST, resolve};
use facts::{Read, read_report};
use serde_json::Value;
use std::alloc::Global;
use weather_reports::{Metar, Taf};
use weather_window::{at, worst};

fn receipt_of(case: &Value) -> Minute
    ensures { (FIRST ≤ result) × (result ≤ LAST) }
{
    match number_at(case, "receipt", LAST) {
        Some(receipt) if FIRST <= receipt => receipt,
        _ => FIRST,
    }
}

// The reading of a report, or its first fault, as JSON.
fn reading_text(alloc: Global, text: &[u8], case: &Value) -> Result<String, OutOfMemory> {
    match read_report(alloc, text, receipt_of(case)) {
        Ok(Read::Metar(metar)) => metar_text(alloc, &metar),
        Ok(Read::Taf(taf)) => taf_text(alloc, &taf),
        Err(ReportFault::Bad(bad)) => fault_text(alloc, bad),
        Err(ReportFault::OutOfMemory) => Err(OutOfMemory),
    }
}

fn is_canonical(alloc: Global, text: &[u8], case: &Value) -> Result<bool, OutOfMemory> {
    let canonical = Groups::of(alloc, text)?.canonical(alloc)?;
    match bytes_at(alloc, case, "canonical_hex")? {
        Some(wanted) => Ok(wanted.as_slice() == canonical.bytes()),
        None => Ok(false),
    }
}

/// Checks a case with the keys `text_hex`, `receipt`, `canonical_hex` and `reading`.
pub fn reads(alloc: Global, case: &Value) -> Result<bool, OutOfMemory> {
    let Some(text) = bytes_at(alloc, case, "text_hex")? else {
        return Ok(false);
    };
    let reading = reading_text(alloc, &text, case)?;
    Ok(is_written(alloc, case, "reading", &reading)? && is_canonical(alloc, &text, case)?)
}

// The report at a key, if its text can be read.
fn report_at(alloc: Global, case: &Value, key: &str) -> Result<Option<Read>, OutOfMemory> {
    let Some(text) = text_at(case, key) else {
        return Ok(None);
    };
    match read_report(alloc, text.as_bytes(), receipt_of(case)) {
        Ok(read) => Ok(Some(read)),
        Err(ReportFault::Bad(_)) => Ok(None),
        Err(ReportFault::OutOfMemory) => Err(OutOfMemory),
    }
}

fn taf_in(read: &Option<Read>) -> Option<&Taf> {
    match read {
        Some(Read::Taf(taf)) => Some(taf),
        _ => None,
    }
}

fn metar_in(read: &Option<Read>) -> Option<&Metar> {
    match read {
        Some(Read::Metar(metar)) => Some(metar),
        _ => None,
    }
}

// The first and the last minute of a case's window, which is at most a day long.
fn window_of(case: &Value) -> Option<(Minute, Minute)>
    ensures { IfSome result (λ w. (w.0 ≤ w.1) × (w.1 ≤ SHOWN_LAST) × (w.1 - w.0 ≤ 1440)) }
{
    let from = number_at(case, "from", SHOWN_LAST)?;
    let to = number_at(case, "to", SHOWN_LAST)?;
    if from <= to && to - from <= 1440 {
        Some((from, to))
    } else {
        None
    }
}

/// Checks a case with the keys `taf`, `metar`, `receipt`, `hold`, `from`, `to`, `at_from` and `worst`.
pub fn controls(alloc: Global, case: &Value) -> Result<bool, OutOfMemory> {
    let taf = report_at(alloc, case, "taf")?;
    let metar = report_at(alloc, case, "metar")?;
    let Some(hold) = number_at(case, "hold", 1440) else {
        return Ok(false);
    };
    let Some((from, to)) = window_of(case) else {
        return Ok(false);
    };
    let (taf, metar, hold) = (taf_in(&taf), metar_in(&metar), hold as u32);
    let first = cond_text(alloc, at(taf, metar, hold, from))?;
    let least = cond_text(alloc, worst(taf, metar, hold, from, to))?;
    Ok(is_written(alloc, case, "at_from", &first)? && is_written(alloc, case, "worst", &least)?)
}

fn resolved_text(alloc: Global, resolved: Result<Minute, BadDay>) -> Result<String, OutOfMemory> {
    match resolved {
        Ok(at) => Ok(at.to_string(alloc)?),
        Err(BadDay::BadTime) => Ok(String::from_str(alloc, r#""BadTime""#)?),
        Err(BadDay::OutOfReach) => Ok(String::from_str(alloc, r#""OutOfReach""#)?),
    }
}

/// Checks a case with the keys `first_day`, `day`, `hour`, `minute` and `resolve`.
pub fn resolves(alloc: Global, case: &Value) -> Result<bool, OutOfMemory> {
    let Some(first_day) = number_at(case, "first_day", 48_000) else {
        return Ok(false);
    };
    match (
        number_at(case, "day", 99),
        number_at(case, "hour", 99),
        number_at(case, "minute", 99),
    ) {
        (Some(day), Some(hour), Some(minute)) if 10_000 <= first_day => {
            let resolved = resolve(first_day, day as u8, hour as u8, minute as u8);
            is_written(alloc, case, "resolve", &resolved_text(alloc, resolved)?)
        }
        _ => Ok(false),
    }
}
