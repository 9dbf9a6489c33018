use codes::{BadReport, Cond, Why};
use desk_io::{OutOfMemory, Pair};
use std::alloc::Global;
use std::str;
use table_files::{BadTable, TableWhy};
use weather_reports::{Metar, Part, PartKind, Taf, TafState};

/// A number, or null.
fn option_text(alloc: Global, number: Option<u32>) -> Result<String, OutOfMemory> {
    match number {
        Some(number) => Ok(number.to_string(alloc)?),
        None => Ok(String::from_str(alloc, "null")?),
    }
}

/// A condition as JSON: ceiling in feet, visibility in millimetres. Here and below the keys are in alphabetical
/// order.
pub fn cond_text(alloc: Global, cond: Cond) -> Result<String, OutOfMemory> {
    let ceiling = option_text(alloc, cond.ceiling)?;
    let vis = option_text(alloc, cond.vis)?;
    Ok(format!(in alloc; r#"{{"ceiling":{ceiling},"vis":{vis}}}"#)?)
}

fn station_text(alloc: Global, bytes: [u8; 4]) -> Result<String, OutOfMemory> {
    match str::from_utf8(&bytes) {
        Ok(text) => Ok(String::from_str(alloc, text)?),
        Err(_) => Ok(String::from_str(alloc, "")?),
    }
}

/// The reading of a METAR as JSON.
pub fn metar_text(alloc: Global, metar: &Metar) -> Result<String, OutOfMemory> {
    let station = station_text(alloc, metar.station.bytes())?;
    let cond = cond_text(alloc, metar.cond)?;
    let (special, observed, corrected) = (metar.special, metar.observed, metar.corrected);
    let (auto, nil, unread) = (metar.auto, metar.nil, metar.unread);
    let head = format!(in alloc;
        r#""auto":{auto},"cond":{cond},"corrected":{corrected},"nil":{nil}"#
    )?;
    Ok(format!(in alloc;
        r#"{{"metar":{{{head},"observed":{observed},"special":{special},"station":"{station}","unread":{unread}}}}}"#
    )?)
}

fn part_name(kind: PartKind) -> &'static str {
    match kind {
        PartKind::Base => "Base",
        PartKind::From => "From",
        PartKind::Becoming => "Becoming",
        PartKind::Tempo => "Tempo",
        PartKind::Prob => "Prob",
    }
}

fn part_text(alloc: Global, part: &Part) -> Result<String, OutOfMemory> {
    let (kind, from, to) = (part_name(part.kind), part.from, part.to);
    let cond = cond_text(alloc, part.cond)?;
    Ok(format!(in alloc; r#"{{"cond":{cond},"from":{from},"kind":"{kind}","to":{to}}}"#)?)
}

/// Texts with commas between them.
fn joined(alloc: Global, texts: &[String]) -> Result<String, OutOfMemory> {
    let mut joined = String::new(alloc);
    for (i, text) in texts.iter().enumerate() {
        if i > 0 {
            joined.push_str(",")?;
        }
        joined.push_str(text)?;
    }
    Ok(joined)
}

fn parts_text(alloc: Global, parts: &[Part]) -> Result<String, OutOfMemory> {
    let mut texts = Vec::new(alloc);
    for part in parts {
        texts.push(part_text(alloc, part)?)?;
    }
    joined(alloc, &texts)
}

fn state_name(state: TafState) -> &'static str {
    match state {
        TafState::Normal => "Normal",
        TafState::Nil => "Nil",
        TafState::Cancelled => "Cancelled",
    }
}

/// The reading of a forecast as JSON.
pub fn taf_text(alloc: Global, taf: &Taf) -> Result<String, OutOfMemory> {
    let station = station_text(alloc, taf.station.bytes())?;
    let parts = parts_text(alloc, taf.parts.as_slice())?;
    let (issued, from, to) = (taf.issued, taf.from, taf.to);
    let (amended, corrected, state) = (taf.amended, taf.corrected, state_name(taf.state));
    let head = format!(in alloc;
        r#""amended":{amended},"corrected":{corrected},"from":{from},"issued":{issued}"#
    )?;
    Ok(format!(in alloc;
        r#"{{"taf":{{{head},"parts":[{parts}],"state":"{state}","station":"{station}","to":{to}}}}}"#
    )?)
}

fn why_name(why: Why) -> &'static str {
    match why {
        Why::Missing => "Missing",
        Why::NotStation => "NotStation",
        Why::NotTime => "NotTime",
        Why::DayOutOfReach => "DayOutOfReach",
        Why::BadVisibility => "BadVisibility",
        Why::BadSky => "BadSky",
        Why::BadPeriod => "BadPeriod",
        Why::TooLong => "TooLong",
    }
}

/// The first fault of a report as JSON.
pub fn fault_text(alloc: Global, bad: BadReport) -> Result<String, OutOfMemory> {
    let (group, why) = (bad.group, why_name(bad.why));
    Ok(format!(in alloc; r#"{{"bad":{{"group":{group},"why":"{why}"}}}}"#)?)
}

fn table_why(why: TableWhy) -> &'static str {
    match why {
        TableWhy::BadField => "BadField",
        TableWhy::Doubled => "Doubled",
        TableWhy::Unlinked => "Unlinked",
        TableWhy::OverLimit => "OverLimit",
    }
}

/// The first fault of a table as JSON.
pub fn bad_table_text(alloc: Global, bad: &BadTable) -> Result<String, OutOfMemory> {
    let (line, why) = (bad.line, table_why(bad.why));
    let name = match str::from_utf8(bad.name.bytes()) {
        Ok(name) => name,
        Err(_) => "",
    };
    Ok(format!(in alloc; r#"{{"line":{line},"name":"{name}","why":"{why}"}}"#)?)
}

fn pair_text(alloc: Global, pair: Pair) -> Result<String, OutOfMemory> {
    let (ceiling, vis) = (pair.ceiling, pair.vis);
    Ok(format!(in alloc; "[{ceiling},{vis}]")?)
}

/// Pairs of minima as JSON: feet, and millimetres.
pub fn pairs_text(alloc: Global, pairs: &[Pair]) -> Result<String, OutOfMemory> {
    let mut texts = Vec::new(alloc);
    for pair in pairs {
        texts.push(pair_text(alloc, *pair)?)?;
    }
    let pairs = joined(alloc, &texts)?;
    Ok(format!(in alloc; "[{pairs}]")?)
}

/// A pair of minima as JSON, or null.
pub fn option_pair_text(alloc: Global, pair: Option<Pair>) -> Result<String, OutOfMemory> {
    match pair {
        Some(pair) => pair_text(alloc, pair),
        None => Ok(String::from_str(alloc, "null")?),
    }
}
