ghost use Rattle.std.specs.Prelude.{◌≡◌, ◌<◌, ℕ, if◌then◌else◌, Some, unwrap_or, IfOk, OnOk};
ghost use Rattle.std.specs.BTreeMap.{is_at};
ghost use Rattle.desk_time.specs.Limits.{IsMoment};
ghost use Rattle.records.specs.Faults.{minute_of};
ghost use Rattle.records.specs.Marks as spec;
ghost use Rattle.records.specs.Valid.{IsRecord};

use crate::kinds::{key_of, kind_of};
use crate::record::{KeptReport, Record};
use codes::ReportFault;
use desk_io::OutOfMemory;
use desk_time::Minute;
use facts::{fingerprint, read_report};
use plan::is_active;
use std::alloc::Global;
use std::collections::BTreeMap;

/// A value that any two conflicting records share. Each record has two marks.
pub(crate) type Mark = (u64, u64);

/// The first place of each mark.
pub(crate) type Firsts = BTreeMap<Mark, usize>;

/// The marks of a record.
#[derive(Clone, Copy)]
pub(crate) struct Marks {
    /// The kind and the key of its row.
    pub(crate) own: Mark,
    /// A mark of its content, by which conflicts with other rows are found.
    pub(crate) other: Mark,
}

fn own_mark(held: &Record) -> Mark
    ensures { result ≡ spec.own_mark held.now }
{
    let held = held.lent();
    (u64::from(kind_of(&held)), key_of(&held))
}

// Returns the minute at which a report was observed or issued.
#[tactic(auto, unfolding(crate::specs::Faults::minute_of))]
fn minute_of(alloc: Global, report: &KeptReport) -> Result<Minute, OutOfMemory>
    requires { IsMoment report.now.received }
    ensures { IfOk result (λ minute. minute ≡ minute_of report.now) }
{
    match read_report(alloc, report.text.bytes(), report.received) {
        Ok(read) => Ok(read.minute()),
        Err(ReportFault::Bad(_)) => Ok(0),
        Err(ReportFault::OutOfMemory) => Err(OutOfMemory),
    }
}

fn release_mark(active: bool, id: u64) -> Mark
    ensures { result ≡ spec.release_mark active id }
{
    if active { (3, id) } else { (6, id) }
}

#[tactic(auto, unfolding(crate::specs::Valid::IsRecord))]
fn other_mark(alloc: Global, held: &Record) -> Result<Mark, OutOfMemory>
    requires { IsRecord held.now }
    ensures { IfOk result (λ mark. mark ≡ spec.other_mark held.now) }
{
    match held {
        Record::Meta(_) => Ok((0, 0)),
        Record::Report(report) => Ok((minute_of(alloc, report)?, fingerprint(report.text.bytes()))),
        Record::Deferral(deferral) => Ok((2, deferral.id)),
        Record::Release(release) => Ok(release_mark(is_active(release.phase), release.id)),
        Record::Kept(kept) => Ok((fingerprint(kept.actor.bytes()), kept.number)),
        Record::Alert(alert) => Ok((6, alert.release)),
    }
}

/// Computes the marks of a record.
pub(crate) fn marks_of(alloc: Global, held: &Record) -> Result<Marks, OutOfMemory>
    requires { IsRecord held.now }
    ensures { IfOk result (λ marks. marks ≡ spec.marks_of held.now) }
{
    Ok(Marks {
        own: own_mark(held),
        other: other_mark(alloc, held)?,
    })
}

/// Returns the first place of a mark.
pub(crate) fn place_at(firsts: &Firsts, mark: Mark) -> Option<usize>
    ensures { result ≡ spec.place_at firsts.now.entries mark }
{
    firsts.get(&mark).copied()
}

// Notes a mark at a place, unless it has an earlier one.
fn note(firsts: &mut Firsts, mark: Mark, place: usize) -> Result<(), OutOfMemory>
    ensures { OnOk result ((q : ℕ × ℕ) → spec.place_at firsts.new.entries q
        ≡ (if is_at (spec.mark_cmp mark) q then Some (unwrap_or (spec.place_at firsts.old.entries q) place) else
        spec.place_at firsts.old.entries q)) }
{
    if place_at(firsts, mark).is_none() {
        firsts.insert(mark, place)?;
    }
    Ok(())
}

fn note_both(firsts: &mut Firsts, marks: Marks, place: usize) -> Result<(), OutOfMemory>
    ensures { OnOk result ((q : ℕ × ℕ) → spec.place_at firsts.new.entries q
        ≡ (if spec.is_marked q marks then Some (unwrap_or (spec.place_at firsts.old.entries q) place) else
        spec.place_at firsts.old.entries q)) }
{
    note(firsts, marks.own, place)?;
    note(firsts, marks.other, place)
}

/// Returns the first place of each mark of the records.
pub(crate) fn index_of(alloc: Global, marks: &[Marks]) -> Result<Firsts, OutOfMemory>
    ensures { IfOk result (λ firsts. spec.IsIndex firsts.entries marks.now) }
{
    let mut firsts = BTreeMap::new(alloc);
    for (place, marked) in marks.iter().enumerate() {
        note_both(&mut firsts, *marked, place)?;
    }
    Ok(firsts)
}
