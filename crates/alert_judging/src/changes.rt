ghost use Rattle.std.specs.Prelude.{◌≡◌, ◌++◌, IfOk, OnOk};
ghost use Rattle.std.specs.Option.{option_copied};
ghost use Rattle.desk_state.specs.Events as events;
ghost use Rattle.desk_state.specs.Events.{change_between};

use alerts::{Alert, Notices, notice_of};
use desk_io::{Copied, OutOfMemory};
use desk_state::AlertChange;
use std::alloc::Global;

fn copied_alert(alloc: Global, alert: Option<&Alert>) -> Result<Option<Alert>, OutOfMemory>
    ensures { IfOk result (λ a. a ≡ option_copied alert.entry) }
{
    match alert {
        None => Ok(None),
        Some(alert) => Ok(Some(alert.copy(alloc)?)),
    }
}

// Returns true if both alerts have the same version, and both or neither are acknowledged.
fn is_same_alert(one: &Alert, two: &Alert) -> bool
    ensures { result ≡ events.is_same_alert one.now two.now }
{
    one.version == two.version && is_same_mark(one.acknowledged, two.acknowledged)
}

fn is_same_mark(one: bool, two: bool) -> bool
    ensures { result ≡ events.is_same_mark one two }
{
    if one { two } else { !two }
}

/// Appends the change of a release's alert, unless it is the same before and after.
pub(crate) fn push_change(
    alloc: Global,
    out: &mut Vec<AlertChange>,
    release: u64,
    before: Option<&Alert>,
    after: Option<&Alert>,
) -> Result<(), OutOfMemory>
    ensures { OnOk result (out.new.items ≡ out.old.items ++ change_between release (option_copied before.entry)
        (option_copied after.entry)) }
{
    match (before, after) {
        (None, None) => return Ok(()),
        (Some(one), Some(two)) if is_same_alert(one, two) => return Ok(()),
        _ => {}
    }
    out.push(AlertChange {
        release,
        before: copied_alert(alloc, before)?,
        after: copied_alert(alloc, after)?,
    })?;
    Ok(())
}

/// Returns the notices that dispatchers get of changes of alerts.
pub fn notices_of(alloc: Global, changes: &[AlertChange]) -> Result<Notices, OutOfMemory>
    ensures { IfOk result (λ n. n ≡ events.notices_of changes.now) }
{
    let mut out = Notices::new(alloc);
    for change in changes {
        if let Some(notice) = notice_of(alloc, change.before.as_ref(), change.after.as_ref())? {
            out.push(notice)?;
        }
    }
    Ok(out)
}
