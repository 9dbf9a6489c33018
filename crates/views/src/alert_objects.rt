ghost use Rattle.std.specs.Prelude.{◌≡◌, map, IfOk, IfSome};
ghost use Rattle.std.specs.List.{AllByRecursion};
ghost use Rattle.std.specs.Option.{option_copied};
ghost use Rattle.asks.specs.Canonical.{option_data};
ghost use Rattle.desk_state.specs.State.{alert_at};
ghost use Rattle.desk_time.specs.Limits.{IsMoment};
ghost use Rattle.serde_json.specs.View.{members_view, view};
ghost use Rattle.views.specs.Objects as spec;
ghost use Rattle.views.specs.Shown.{alerts_shown};

use crate::values::with_flag;
use alerts::Alert;
use asks::{Members, with_count, with_moment, with_text, with_value};
use desk_io::OutOfMemory;
use desk_state::Content;
use release_json::findings_value;
use serde_json::{Map, Value};
use std::alloc::Global;

// The rules that fail and that have failed.
fn with_findings(alloc: Global, members: Members, alert: &Alert) -> Result<Members, OutOfMemory>
    ensures { IfOk result (λ all. members_view all.entries ≡ spec.with_findings alert.now
        (members_view members.entries)) }
{
    let ever = findings_value(alloc, alert.ever.as_slice())?;
    let members = with_value(alloc, members, "ever", ever)?;
    let failing = findings_value(alloc, alert.failing.as_slice())?;
    with_value(alloc, members, "failing", failing)
}

fn alert_members(alloc: Global, alert: &Alert) -> Result<Members, OutOfMemory>
    requires { IsMoment alert.now.opened }
    ensures { IfOk result (λ all. members_view all.entries ≡ spec.alert_members alert.now) }
{
    let members = Map::new(alloc);
    let members = with_flag(alloc, members, "acknowledged", alert.acknowledged)?;
    let members = with_text(alloc, members, "dispatcher", alert.desk.bytes())?;
    let members = with_findings(alloc, members, alert)?;
    let members = with_moment(alloc, members, "opened", alert.opened)?;
    let members = with_count(alloc, members, "release", alert.release)?;
    with_count(alloc, members, "version", alert.version)
}

#[tactic(auto, unfolding(crate::specs::Objects::alert_data))]
fn alert_value(alloc: Global, alert: &Alert) -> Result<Value, OutOfMemory>
    requires { IsMoment alert.now.opened }
    ensures { IfOk result (λ v. view v ≡ spec.alert_data alert.now) }
{
    Ok(Value::Object(alert_members(alloc, alert)?))
}

/// The alert of a release.
pub(crate) fn alert_of(content: &Content, id: u64) -> Option<&Alert>
    ensures alert { option_copied result ≡ alert_at id content.now.state.alerts }
    ensures opened { IfSome (option_copied result) (λ a. IsMoment a.opened) }
{
    content.holds();
    content.alert(id)
}

/// An alert, or null.
pub(crate) fn optional_alert(alloc: Global, alert: Option<&Alert>) -> Result<Value, OutOfMemory>
    requires { IfSome (option_copied alert) (λ a. IsMoment a.opened) }
    ensures { IfOk result (λ v. view v ≡ option_data spec.alert_data (option_copied alert.entry)) }
{
    match alert {
        None => Ok(Value::Null),
        Some(alert) => alert_value(alloc, alert),
    }
}

fn alert_values(alloc: Global, alerts: &[Alert]) -> Result<Vec<Value>, OutOfMemory>
    requires { AllByRecursion (λ a. IsMoment a.opened) alerts.now }
    ensures { IfOk result (λ values. map view values.items ≡ map spec.alert_data alerts.now) }
{
    let mut values = Vec::new(alloc);
    for alert in alerts {
        values.push(alert_value(alloc, alert)?)?;
    }
    Ok(values)
}

/// The members of the view of all alerts.
pub(crate) fn alerts_members(alloc: Global, content: &Content) -> Result<Members, OutOfMemory>
    ensures { IfOk result (λ all. members_view all.entries ≡ spec.alerts_members (alerts_shown content.now.state)) }
{
    content.holds();
    let values = alert_values(alloc, content.alerts())?;
    let members = with_value(alloc, Map::new(alloc), "alerts", Value::Array(values))?;
    with_moment(alloc, members, "at", content.moment())
}
