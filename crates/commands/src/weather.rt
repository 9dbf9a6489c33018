ghost use Rattle.std.specs.Prelude.{◌≡◌, ◌≤◌, ◌++◌, IfOk, IfSome, OnOk};
ghost use Rattle.std.specs.Option.{option_map};
ghost use Rattle.facts.specs.Reading.{read_of, ReadHasMoments};
ghost use Rattle.commands.specs.Weather as spec;
ghost use Rattle.commands.specs.Weather.{weather_text};

use codes::{BadReport, ReportFault};
use desk_io::{LineFeeds, OutOfMemory, Run, Text, push_all, runs_between};
use desk_json::why_name;
use desk_time::{FIRST, LAST, Minute, read_minute};
use facts::{Read, Report, push_line, read_report};
use std::alloc::Global;

// The moment at the start of a line, and the text after the blank that follows the moment.
fn stamped(line: &[u8]) -> Option<(Minute, &[u8])>
    ensures value { option_map (λ p. (p.0, p.1.now)) result ≡ spec.stamped line.now }
    ensures range { IfSome result (λ p. (FIRST ≤ p.0) × (p.0 ≤ LAST)) }
{
    if line.len() < 18 || line[17] != b' ' {
        return None;
    }
    let at = read_minute(&line[..17])?;
    Some((at, &line[18..]))
}

fn push_fault(alloc: Global, out: &mut Vec<u8>, group: u32, why: &str) -> Result<(), OutOfMemory>
    ensures { OnOk result (out.new.items ≡ out.old.items ++ spec.fault_line group why.now) }
{
    let group = group.to_string(alloc)?;
    push_all(
        out,
        &[b"bad ", group.as_bytes(), b" ", why.as_bytes(), b"\n"],
    )
}

fn reading_of(
    alloc: Global,
    text: &[u8],
    receipt: Minute,
) -> Result<Result<Read, BadReport>, OutOfMemory>
    requires low { FIRST ≤ receipt }
    requires high { receipt ≤ LAST }
    ensures value { IfOk result (λ r. r ≡ read_of text.now receipt) }
    ensures moments { IfOk result (λ r. IfOk r ReadHasMoments) }
{
    match read_report(alloc, text, receipt) {
        Ok(read) => Ok(Ok(read)),
        Err(ReportFault::Bad(bad)) => Ok(Err(bad)),
        Err(ReportFault::OutOfMemory) => Err(OutOfMemory),
    }
}

fn push_reading(
    alloc: Global,
    out: &mut Vec<u8>,
    at: Minute,
    reading: Result<Read, BadReport>,
) -> Result<(), OutOfMemory>
    requires low { FIRST ≤ at }
    requires high { at ≤ LAST }
    requires moments { IfOk reading ReadHasMoments }
    ensures { OnOk result (out.new.items ≡ out.old.items ++ spec.shown_reading at reading) }
{
    match reading {
        Err(bad) => push_fault(alloc, out, bad.group, why_name(bad.why)),
        Ok(read) => {
            let report = Report {
                id: 0,
                received: at,
                text: Text::from_vec(Vec::new(alloc)),
                read,
            };
            push_line(out, &report)
        }
    }
}

fn push_report(alloc: Global, out: &mut Vec<u8>, line: &[u8]) -> Result<(), OutOfMemory>
    ensures { OnOk result (out.new.items ≡ out.old.items ++ spec.shown_report (spec.stamped line.now)) }
{
    match stamped(line) {
        None => push_fault(alloc, out, 0, "Missing"),
        Some((at, text)) => {
            let reading = reading_of(alloc, text, at)?;
            push_reading(alloc, out, at, reading)
        }
    }
}

fn push_lines(alloc: Global, out: &mut Vec<u8>, lines: &[Run<'_>]) -> Result<(), OutOfMemory>
    ensures { OnOk result (out.new.items ≡ out.old.items ++ spec.shown_lines lines.now) }
{
    for line in lines {
        push_report(alloc, out, line.bytes())?;
    }
    Ok(())
}

/// The text for a file of reports. Each nonempty line gives the weather line of its report, or its first fault.
#[tactic(auto, unfolding(crate::specs::Weather::weather_text))]
pub fn text_of_weather(alloc: Global, file: &[u8]) -> Result<Vec<u8>, OutOfMemory>
    ensures { IfOk result (λ v. v.items ≡ weather_text file.now) }
{
    let lines = runs_between::<LineFeeds>(alloc, file)?;
    let mut out = Vec::new(alloc);
    push_lines(alloc, &mut out, &lines)?;
    Ok(out)
}
