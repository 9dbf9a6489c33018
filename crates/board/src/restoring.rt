ghost use Rattle.std.specs.Prelude.{OnOk, ◌≡◌, ◌<◌, false, map, IfOk};
ghost use Rattle.desk_io.specs.Rows.{Rows, rows_of, changed_by};
ghost use Rattle.keeper.specs.Kept.{AreSame};
ghost use Rattle.row_changes.specs.Upgraded as kept;
ghost use Rattle.row_changes.specs.Rows.{AreKept};
ghost use Rattle.desk_state.specs.Effects.{nothing};
ghost use Rattle.desk_state.specs.Events.{alert_changes};
ghost use Rattle.records.specs.Bodies.{row_in};
ghost use Rattle.records.specs.Reading.{version_if};
ghost use Rattle.row_changes.specs.Held.{AreOfDesk, state_in};
ghost use Rattle.row_changes.specs.Opening as spec;
ghost use Rattle.row_changes.specs.Opening.{MayReopen, reopened};

use alert_judging::Prospect;
use desk_io::{Change, OutOfMemory};
use desk_state::{AlertChange, Alerted, Content, Effect};
use ops_tables::Tables;
use records::Record;
use row_changes::{content_of, opened_changes};
use rules::Steps;
use std::alloc::Global;
use std::sync::ledger::Ledger;

/// The state that records represent, after its active releases are judged.
#[derive(Drop)]
pub(crate) struct Reopened {
    pub held: Alerted,
    /// The changes that opening makes to the rows.
    pub changes: Vec<Change>,
}

// Returns the changes of alerts when every active release is judged again.
#[tactic(auto, using(crate::proofs::Anew::nothing_fits))]
fn judge_anew<L: Ledger>(
    alloc: Global,
    content: &Content,
    steps: &mut Steps<L>,
) -> Result<Vec<AlertChange>, OutOfMemory>
    requires { MayReopen content.now.state }
    ensures { IfOk result (λ v. v.items ≡ alert_changes nothing content.now.state) }
{
    let effect = Effect::nothing();
    Prospect {
        content,
        effect: &effect,
    }
    .all_changes(alloc, steps)
}

// A judgement that changes an alert counts as an event.
fn events_with(alerts: &[AlertChange], events: u64) -> u64
    requires { events < 999_999_999_999_999 }
    ensures { result ≡ spec.events_with alerts.now events }
{
    match alerts {
        [] => events,
        [_, ..] => events + 1,
    }
}

// Installs the changes of alerts.
fn put_judged(content: &mut Content, alerts: Vec<AlertChange>) -> Result<(), OutOfMemory>
    requires may { MayReopen content.old.state }
    requires judged { alerts.items ≡ alert_changes nothing content.old.state }
    ensures state { OnOk result (content.new.state ≡ reopened content.old.state) }
    ensures listed { OnOk result (content.new.listed ≡ content.old.listed) }
{
    let events = events_with(&alerts, content.counters().events);
    content.put_judged(alerts, events)
}

// Judges a state again, and returns the changes to the rows. Rows of the first version are rewritten.
fn reopen<L: Ledger>(
    alloc: Global,
    content: &mut Content,
    is_old: bool,
    steps: &mut Steps<L>,
) -> Result<Vec<Change>, OutOfMemory>
    requires { MayReopen content.old.state }
    ensures state { OnOk result (content.new.state ≡ reopened content.old.state) }
    ensures listed { OnOk result (content.new.listed ≡ content.old.listed) }
    ensures changes { IfOk result (λ v. v.items ≡ kept.opened_changes is_old content.old.state
        (alert_changes nothing content.old.state)) }
{
    let alerts = judge_anew(alloc, content, steps)?;
    let changes = opened_changes(alloc, content, is_old, alerts.as_slice())?;
    put_judged(content, alerts)?;
    Ok(changes)
}

// Drops the content in a function of its own, which keeps the caller's proof small.
fn drop_content(_: Content) {}

/// Restores the state that records represent with these tables, judges its active releases, and returns the changes
/// to the rows. If `is_old` is true, the rows are of the first version.
#[tactic(auto, using(row_changes::proofs::StateLaws::may_reopen))]
pub(crate) fn restored<L: Ledger>(
    alloc: Global,
    tables: Tables,
    records: Vec<Record>,
    is_old: bool,
    steps: &mut Steps<L>,
) -> Result<Reopened, OutOfMemory>
    requires { AreOfDesk records.items }
    ensures state { IfOk result (λ r. r.held.state ≡ reopened (state_in tables records.items)) }
    ensures listed { IfOk result (λ r. r.held.listed ≡ false) }
    ensures changes { IfOk result (λ r. r.changes.items ≡ kept.opened_changes is_old (state_in tables records.items)
        (alert_changes nothing (state_in tables records.items))) }
    ensures kept { IfOk result (λ r. (rows : Rows)
        → AreSame rows (rows_of (map (row_in (version_if is_old)) records.items))
        → AreKept (changed_by r.changes.items rows) (reopened (state_in tables records.items))) }
{
    tables.are_named();
    let mut content = content_of(alloc, tables, records)?;
    match reopen(alloc, &mut content, is_old, steps) {
        Ok(changes) => Ok(Reopened {
            held: Alerted::of(content),
            changes,
        }),
        Err(OutOfMemory) => {
            drop_content(content);
            Err(OutOfMemory)
        }
    }
}
