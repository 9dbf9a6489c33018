ghost use Rattle.std.specs.Prelude.{◌≡◌, IfOk, OnOk};
ghost use Rattle.row_changes.specs.Parting as spec;

use asks::KeptReply;
use deferrals::Deferral;
use desk_io::OutOfMemory;
use plan::Release;
use records::{KeptAlert, KeptReport, Meta, Record};
use std::alloc::Global;

/// Records by kind, each kind in order.
#[derive(Drop)]
pub(crate) struct Parts {
    /// The first meta record.
    pub meta: Option<Meta>,
    pub reports: Vec<KeptReport>,
    pub deferrals: Vec<Deferral>,
    pub releases: Vec<Release>,
    pub replies: Vec<KeptReply>,
    pub alerts: Vec<KeptAlert>,
}

fn no_parts(alloc: Global) -> Parts
    ensures { spec.kinds_of result ≡ spec.no_kinds }
{
    Parts {
        meta: None,
        reports: Vec::new(alloc),
        deferrals: Vec::new(alloc),
        releases: Vec::new(alloc),
        replies: Vec::new(alloc),
        alerts: Vec::new(alloc),
    }
}

fn keep_first_meta(held: &mut Option<Meta>, meta: Meta)
    ensures { held.new ≡ spec.first_of held.old meta }
{
    if held.is_none() {
        *held = Some(meta);
    }
}

fn add_record(parts: &mut Parts, found: Record) -> Result<(), OutOfMemory>
    ensures { OnOk result (spec.kinds_of parts.new ≡ spec.with_record found (spec.kinds_of parts.old)) }
{
    match found {
        Record::Meta(meta) => keep_first_meta(&mut parts.meta, meta),
        Record::Report(report) => parts.reports.push(report)?,
        Record::Deferral(deferral) => parts.deferrals.push(deferral)?,
        Record::Release(release) => parts.releases.push(release)?,
        Record::Kept(reply) => parts.replies.push(reply)?,
        Record::Alert(alert) => parts.alerts.push(alert)?,
    }
    Ok(())
}

/// Separates records by kind.
pub(crate) fn parts_of(alloc: Global, records: Vec<Record>) -> Result<Parts, OutOfMemory>
    ensures { IfOk result (λ parts. spec.kinds_of parts ≡ spec.with_records records.items spec.no_kinds) }
{
    let mut parts = no_parts(alloc);
    for found in records {
        add_record(&mut parts, found)?;
    }
    Ok(parts)
}
