use alerts::Alert;
use asks::{Done, Refusal, Reply};
use codes::ReportFault;
use desk_io::{Copied, LineFeeds, OutOfMemory, Text, runs_between};
use desk_json::{CallFault, read_line};
use plan::{Finding, Findings, Rule};
use records::Record;
use small_airline::{SIGNED, reports_of, script_of};
use std::alloc::Global;
use std::fmt::Debug;
use std::test::Fail;

fn is_copied<T: Copied + Debug + Drop>(alloc: Global, value: &T) -> Result<bool, OutOfMemory> {
    let copy = value.copy(alloc)?;
    Ok(format!(in alloc; "{value:?}")? == format!(in alloc; "{copy:?}")?)
}

/// Whether a deferral, a release or what is kept of a command is copied as it is, or a part of another record.
pub fn is_record_copied(alloc: Global, record: &Record) -> Result<bool, OutOfMemory> {
    match record {
        Record::Deferral(deferral) => is_copied(alloc, deferral),
        Record::Release(release) => is_copied(alloc, release),
        Record::Kept(kept) => is_copied(alloc, kept),
        Record::Meta(meta) => is_copied(alloc, &meta.floors),
        Record::Report(report) => is_copied(alloc, &report.text),
        Record::Alert(alert) => is_copied(alloc, &alert.ever),
    }
}

// The call of a line, if it is one.
fn is_line_copied(alloc: Global, line: &[u8]) -> Result<bool, OutOfMemory> {
    match read_line(alloc, line) {
        Ok((_, call)) => is_copied(alloc, &call),
        Err(CallFault::Bad(_)) => Ok(true),
        Err(CallFault::OutOfMemory) => Err(OutOfMemory),
    }
}

// The calls of a script.
fn calls_copied(alloc: Global, script: &[u8]) -> Result<bool, OutOfMemory> {
    for line in &runs_between::<LineFeeds>(alloc, script)? {
        if !is_line_copied(alloc, line.bytes())? {
            return Ok(false);
        }
    }
    Ok(true)
}

fn view_copied(alloc: Global) -> Result<bool, OutOfMemory> {
    let seen = Reply::Seen(Text::of(alloc, b"BOARD")?);
    is_copied(alloc, &seen)
}

fn refusal_copied(alloc: Global) -> Result<bool, OutOfMemory> {
    let refused = Reply::Refused(Refusal::NotYours {
        holder: Text::of(alloc, b"D1")?,
    });
    is_copied(alloc, &refused)
}

fn report_copied(alloc: Global) -> Result<bool, ReportFault> {
    let reports = reports_of(alloc, &[(1, b"METAR KJFK 121651Z 24008KT 10SM FEW250")])?;
    match reports.as_slice() {
        [report] => Ok(is_copied(alloc, report)?),
        _ => Ok(false),
    }
}

fn alert_copied(alloc: Global) -> Result<bool, OutOfMemory> {
    let mut failing = Findings::new(alloc);
    failing.push(Finding {
        rule: Rule::No10,
        leg: 1,
        place: 1,
    })?;
    let alert = Alert {
        release: 1,
        desk: Text::of(alloc, b"D1")?,
        version: 2,
        opened: 29_029_500,
        ever: failing.copy(alloc)?,
        failing,
        acknowledged: true,
    };
    is_copied(alloc, &alert)
}

#[test]
fn copies_equal(rt: HostRuntime) -> Result<(), Fail> {
    let alloc = rt.alloc();
    let script = script_of(alloc, SIGNED, "")?;
    assert!(rt; calls_copied(alloc, &script)?);
    assert!(rt; view_copied(alloc)?);
    assert!(rt; refusal_copied(alloc)?);
    assert!(rt; is_copied(alloc, &Reply::Done(Done::Report(1)))?);
    assert!(rt; report_copied(alloc)?);
    assert!(rt; alert_copied(alloc)?);
    Ok(())
}
