ghost use Rattle.std.specs.Prelude.{◌≡◌, ◌+◌, ◌≤◌, length, IfSome};
ghost use Rattle.std.specs.List.{AllByRecursion};
ghost use Rattle.desk_state.specs.Events as spec;
ghost use Rattle.desk_state.specs.Install.{IsOf, IsOwn};

use crate::change::AlertChange;
use alerts::Alert;
use desk_io::ById;

// Inserts, replaces or removes the alert of a release, using reserved room. Allocates no memory.
#[tactic(auto, using(crate::proofs::AlertPuts::put_own, crate::proofs::AlertPuts::take_none))]
fn put_alert(alerts: &mut ById<Alert>, release: u64, alert: Option<Alert>)
    requires room { 1 ≤ alerts.old.room }
    requires own { IfSome alert (IsOf release) }
    ensures list { alerts.new.list ≡ spec.put_alert release alert alerts.old.list }
    ensures room { alerts.old.room ≤ alerts.new.room + 1 }
{
    let _ = alerts.as_slice();
    match alert {
        Some(alert) => alerts.put_reserved(alert),
        None => {
            let _ = alerts.take(release);
        }
    }
}

/// Applies changes of alerts in order, using reserved room. Allocates no memory.
pub(crate) fn put_changes(alerts: &mut ById<Alert>, changes: Vec<AlertChange>)
    requires room { length changes.items ≤ alerts.old.room }
    requires own { AllByRecursion IsOwn changes.items }
    ensures { alerts.new.list ≡ spec.put_changes changes.items alerts.old.list }
{
    for change in changes {
        put_alert(alerts, change.release, change.after);
    }
}
