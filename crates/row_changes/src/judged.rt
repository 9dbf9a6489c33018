ghost use Rattle.std.specs.Prelude.{◌≡◌, All, IfOk};
ghost use Rattle.records.specs.Lent.{lent};
ghost use Rattle.row_changes.specs.Judged as spec;
ghost use Rattle.row_changes.specs.Shown.{WasOpened};

use crate::changes::push_alerts;
use crate::held::put_row;
use desk_io::{Change, OutOfMemory};
use desk_state::{AlertChange, Content, Counters};
use records::{MetaRef, Record, RecordRef};
use std::alloc::Global;

fn meta_after_event(content: &Content) -> RecordRef<'_>
    ensures { lent result ≡ Record.Meta (spec.meta_after_event content.now.state) }
{
    content.holds();
    RecordRef::Meta(MetaRef {
        moment: content.moment(),
        counters: Counters {
            events: content.counters().events + 1,
            ..content.counters()
        },
        floors: content.replies().listed_floors(),
    })
}

/// Returns the changes that a judgement alone makes to the rows: those of alerts, and the meta row, because the
/// judgement counts as an event. If no alert changes, there are none.
#[tactic(auto, unfolding(crate::specs::Judged::judged_changes))]
pub(crate) fn judged_changes(
    alloc: Global,
    content: &Content,
    alerts: &[AlertChange],
) -> Result<Vec<Change>, OutOfMemory>
    requires { All (λ c. WasOpened c.after) alerts.now }
    ensures { IfOk result (λ changes. changes.items ≡ spec.judged_changes content.now.state alerts.now) }
{
    content.holds();
    let mut changes = Vec::new(alloc);
    if !alerts.is_empty() {
        changes.push(put_row(alloc, &meta_after_event(content))?)?;
        push_alerts(alloc, &mut changes, alerts)?;
    }
    Ok(changes)
}
