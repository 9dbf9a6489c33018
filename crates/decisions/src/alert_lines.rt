ghost use Rattle.std.specs.Prelude.{◌≡◌, ◌++◌, IfOk, OnOk};
ghost use Rattle.desk_state.specs.Texts as spec;
ghost use Rattle.desk_time.specs.Limits.{IsMoment};

use crate::findings::{findings_text, mark_text};
use alerts::Alert;
use desk_io::{OutOfMemory, Text, push_all};
use desk_state::Content;
use desk_time::show;
use std::alloc::Global;

fn push_alert_head(alloc: Global, out: &mut Vec<u8>, alert: &Alert) -> Result<(), OutOfMemory>
    ensures { OnOk result (out.new.items ≡ out.old.items ++ spec.alert_head alert.now) }
{
    let release = alert.release.to_string(alloc)?;
    let version = alert.version.to_string(alloc)?;
    push_all(
        out,
        &[
            release.as_bytes(),
            b" ",
            alert.desk.bytes(),
            b" v",
            version.as_bytes(),
        ],
    )
}

fn push_opening(out: &mut Vec<u8>, alert: &Alert) -> Result<(), OutOfMemory>
    requires { IsMoment alert.now.opened }
    ensures { OnOk result (out.new.items ≡ out.old.items ++ spec.opening_text alert.now) }
{
    push_all(
        out,
        &[
            b" ",
            &show(alert.opened),
            b" ",
            mark_text(alert.acknowledged),
        ],
    )
}

fn push_failing(alloc: Global, out: &mut Vec<u8>, alert: &Alert) -> Result<(), OutOfMemory>
    ensures { OnOk result (out.new.items ≡ out.old.items ++ spec.failing_text alert.now) }
{
    let failing = findings_text(alloc, alert.failing.as_slice())?;
    let ever = findings_text(alloc, alert.ever.as_slice())?;
    push_all(out, &[&failing, b" ever", &ever, b"\n"])
}

#[tactic(auto, unfolding(desk_state::specs::Texts::alert_line))]
fn push_alert(alloc: Global, out: &mut Vec<u8>, alert: &Alert) -> Result<(), OutOfMemory>
    requires { IsMoment alert.now.opened }
    ensures { OnOk result (out.new.items ≡ out.old.items ++ spec.alert_line alert.now) }
{
    push_alert_head(alloc, out, alert)?;
    push_opening(out, alert)?;
    push_failing(alloc, out, alert)
}

fn push_alerts(alloc: Global, out: &mut Vec<u8>, content: &Content) -> Result<(), OutOfMemory>
    ensures { OnOk result (out.new.items ≡ out.old.items ++ spec.alert_lines content.now.state.alerts) }
{
    content.holds();
    for alert in content.alerts() {
        push_alert(alloc, out, alert)?;
    }
    Ok(())
}

/// Shows the alerts of all releases, acknowledged ones too.
#[tactic(auto, unfolding(desk_state::specs::Texts::alerts_view))]
pub fn alerts_view(alloc: Global, content: &Content) -> Result<Text, OutOfMemory>
    ensures { IfOk result (λ t. t ≡ spec.alerts_view content.now.state.moment content.now.state.alerts) }
{
    content.holds();
    let mut lines = Vec::new(alloc);
    push_alerts(alloc, &mut lines, content)?;
    let mut out = Vec::new(alloc);
    push_all(
        &mut out,
        &[b"ALERTS ", &show(content.moment()), b"\n", &lines],
    )?;
    Ok(Text::from_vec(out))
}
