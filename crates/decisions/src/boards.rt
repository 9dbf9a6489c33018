ghost use Rattle.std.specs.Prelude.{◌≡◌, ◌++◌, IfOk, OnOk};
ghost use Rattle.std.specs.Option.{option_copied};
ghost use Rattle.desk_state.specs.Texts as spec;
ghost use Rattle.plan.specs.Texts.{HasMoment};

use crate::findings::{findings_text, mark_text};
use alerts::Alert;
use desk_io::{OutOfMemory, Text, push_all};
use desk_state::Content;
use desk_time::show;
use facts::push_weather;
use plan::{Release, Revision, phase_text};
use std::alloc::Global;

fn revision_number(revision: &Option<Revision>) -> u64
    ensures { result ≡ spec.revision_number revision.now }
{
    match revision {
        None => 0,
        Some(revision) => revision.number,
    }
}

fn flight_text(alloc: Global, release: &Release) -> Result<Vec<u8>, OutOfMemory>
    ensures { IfOk result (λ v. v.items ≡ spec.flight_text (spec.newest release.now.pending release.now.active)) }
{
    let mut out = Vec::new(alloc);
    match (&release.pending, &release.active) {
        (Some(revision), _) | (None, Some(revision)) => {
            push_all(
                &mut out,
                &[
                    revision.plan.flight.bytes(),
                    b" ",
                    revision.plan.tail.bytes(),
                ],
            )?;
        }
        (None, None) => out.extend_from_slice(b"- -")?,
    }
    Ok(out)
}

fn alert_text(alloc: Global, alert: Option<&Alert>) -> Result<Vec<u8>, OutOfMemory>
    ensures { IfOk result (λ v. v.items ≡ spec.alert_text (option_copied alert.entry)) }
{
    let mut out = Vec::new(alloc);
    match alert {
        None => out.push(b'-')?,
        Some(alert) => {
            let version = alert.version.to_string(alloc)?;
            let failing = findings_text(alloc, alert.failing.as_slice())?;
            push_all(
                &mut out,
                &[
                    b"ALERT v",
                    version.as_bytes(),
                    b" ",
                    mark_text(alert.acknowledged),
                    &failing,
                ],
            )?;
        }
    }
    Ok(out)
}

fn push_release_head(alloc: Global, out: &mut Vec<u8>, release: &Release) -> Result<(), OutOfMemory>
    requires { HasMoment release.now.phase }
    ensures { OnOk result (out.new.items ≡ out.old.items ++ spec.release_head release.now) }
{
    let id = release.id.to_string(alloc)?;
    let flight = flight_text(alloc, release)?;
    let phase = phase_text(alloc, release.phase)?;
    push_all(out, &[id.as_bytes(), b" ", &flight, b" ", phase.bytes()])
}

fn push_numbers(alloc: Global, out: &mut Vec<u8>, release: &Release) -> Result<(), OutOfMemory>
    ensures { OnOk result (out.new.items ≡ out.old.items ++ spec.numbers_text release.now) }
{
    let active = revision_number(&release.active).to_string(alloc)?;
    let pending = revision_number(&release.pending).to_string(alloc)?;
    push_all(
        out,
        &[
            b" rev ",
            active.as_bytes(),
            b" pending ",
            pending.as_bytes(),
            b" ",
        ],
    )
}

fn push_desk(
    alloc: Global,
    out: &mut Vec<u8>,
    release: &Release,
    alert: Option<&Alert>,
) -> Result<(), OutOfMemory>
    ensures { OnOk result (out.new.items ≡ out.old.items ++ spec.desk_text release.now (option_copied alert.entry)) }
{
    let alert = alert_text(alloc, alert)?;
    push_all(out, &[release.holder.bytes(), b" ", &alert, b"\n"])
}

#[tactic(auto, unfolding(desk_state::specs::Texts::release_line))]
fn push_release(
    alloc: Global,
    out: &mut Vec<u8>,
    release: &Release,
    alert: Option<&Alert>,
) -> Result<(), OutOfMemory>
    requires { HasMoment release.now.phase }
    ensures { OnOk result (out.new.items ≡ out.old.items ++ spec.release_line release.now (option_copied alert.entry)) }
{
    push_release_head(alloc, out, release)?;
    push_numbers(alloc, out, release)?;
    push_desk(alloc, out, release, alert)
}

fn push_releases(alloc: Global, out: &mut Vec<u8>, content: &Content) -> Result<(), OutOfMemory>
    ensures { OnOk result (out.new.items ≡ out.old.items ++ spec.release_lines content.now.state.alerts
        content.now.state.releases) }
{
    for release in content.releases().as_slice() {
        push_release(alloc, out, release, content.alert(release.id))?;
    }
    Ok(())
}

fn push_board_head(out: &mut Vec<u8>, content: &Content) -> Result<(), OutOfMemory>
    ensures { OnOk result (out.new.items ≡ out.old.items ++ spec.board_head content.now.state.moment) }
{
    content.holds();
    push_all(out, &[b"BOARD ", &show(content.moment()), b"\n"])
}

/// Shows the releases in order of their ids. Each line has the flight, the aircraft, the phase, the numbers of the
/// active and the pending revision, the dispatcher and the alert.
#[tactic(auto, unfolding(desk_state::specs::Texts::board_view))]
pub fn board_view(alloc: Global, content: &Content) -> Result<Text, OutOfMemory>
    ensures { IfOk result (λ t. t ≡ spec.board_view content.now.state) }
{
    let mut out = Vec::new(alloc);
    push_board_head(&mut out, content)?;
    push_releases(alloc, &mut out, content)?;
    Ok(Text::from_vec(out))
}

/// Shows the text that ends a run: the releases as [`board_view`] shows them, and the latest weather of all stations
/// that have a report.
#[tactic(auto, unfolding(desk_state::specs::Texts::closing))]
pub fn closing(alloc: Global, content: &Content) -> Result<Text, OutOfMemory>
    ensures { IfOk result (λ t. t ≡ spec.closing content.now.state) }
{
    let mut out = Vec::new(alloc);
    push_board_head(&mut out, content)?;
    push_releases(alloc, &mut out, content)?;
    push_weather(&mut out, content.reports())?;
    push_all(&mut out, &[b"END\n"])?;
    Ok(Text::from_vec(out))
}
