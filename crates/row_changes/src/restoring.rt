ghost use Rattle.std.specs.Prelude.{◌≡◌, false, IfOk};
ghost use Rattle.desk_state.specs.Holds.{Holds};
ghost use Rattle.row_changes.specs.Held.{AreOfDesk, state_in};
ghost use Rattle.row_changes.specs.Parting.{kinds_of, no_kinds, with_records};
ghost use Rattle.row_changes.specs.Restoring as spec;

use crate::again::reports_again;
use crate::parting::{Parts, parts_of};
use crate::telling::alerts_told;
use alerts::Alert;
use asks::KeptReply;
use deferrals::Deferrals;
use desk_io::{ById, OutOfMemory};
use desk_state::{Content, History, Holdings};
use facts::Reports;
use kept_replies::Replies;
use ops_tables::{Settings, Tables};
use records::{Meta, Record};
use release_index::Releases;
use std::alloc::Global;

/// The contents of records, in the collections in which the desk holds them.
#[derive(Drop)]
pub(crate) struct Held {
    pub meta: Option<Meta>,
    pub reports: Reports,
    pub deferrals: Deferrals,
    pub releases: Releases,
    pub alerts: ById<Alert>,
    pub kept: Vec<KeptReply>,
}

fn held_of(alloc: Global, settings: Settings, parts: Parts) -> Result<Held, OutOfMemory>
    requires { spec.MayHold (kinds_of parts) }
    ensures { IfOk result (λ held. spec.AreMade settings (kinds_of parts) held) }
{
    let Parts {
        meta,
        reports,
        deferrals,
        releases,
        replies,
        alerts,
    } = parts;
    let reports = Reports::from_vec(alloc, reports_again(alloc, reports)?)?;
    let deferrals = Deferrals::from_vec(alloc, deferrals)?;
    let releases = Releases::from_vec(alloc, settings, releases)?;
    let alerts = ById::from_vec(alerts_told(alloc, &releases, alerts)?);
    Ok(Held {
        meta,
        reports,
        deferrals,
        releases,
        alerts,
        kept: replies,
    })
}

fn held_in(alloc: Global, settings: Settings, records: Vec<Record>) -> Result<Held, OutOfMemory>
    requires { AreOfDesk records.items }
    ensures { IfOk result (λ held. spec.AreMade settings (with_records records.items no_kinds) held) }
{
    held_of(alloc, settings, parts_of(alloc, records)?)
}

fn content_with(alloc: Global, tables: Tables, held: Held) -> Result<Content, OutOfMemory>
    requires holds { Holds (spec.state_held tables held) }
    requires settings { held.releases.settings ≡ tables.settings }
    ensures state { IfOk result (λ content. content.state ≡ spec.state_held tables held) }
    ensures listed { IfOk result (λ content. content.listed ≡ false) }
{
    let Held {
        meta,
        reports,
        deferrals,
        releases,
        alerts,
        kept,
    } = held;
    match meta {
        None => Ok(Content::new(alloc, tables)),
        Some(meta) => {
            let replies = Replies::from_parts(alloc, kept, meta.floors)?;
            Ok(Content::from_holdings(Holdings {
                tables,
                moment: meta.moment,
                counters: meta.counters,
                reports,
                deferrals,
                releases,
                alerts,
                replies,
                history: History::new(),
            }))
        }
    }
}

/// Restores the state that records represent, with these tables. Its history is empty, and will only count entries.
pub fn content_of(
    alloc: Global,
    tables: Tables,
    records: Vec<Record>,
) -> Result<Content, OutOfMemory>
    requires { AreOfDesk records.items }
    ensures state { IfOk result (λ content. content.state ≡ state_in tables records.items) }
    ensures listed { IfOk result (λ content. content.listed ≡ false) }
{
    tables.are_named();
    let held = held_in(alloc, tables.settings(), records)?;
    content_with(alloc, tables, held)
}
