ghost use Rattle.std.specs.Prelude.{◌≡◌, IfOk};
ghost use Rattle.std.specs.List.{filter_map};
ghost use Rattle.row_changes.specs.Held as spec;

use alerts::Alert;
use desk_io::{Copied, OutOfMemory, Text};
use records::KeptAlert;
use release_index::Releases;
use std::alloc::Global;

fn told_to(alloc: Global, kept: KeptAlert, holder: &Text) -> Result<Alert, OutOfMemory>
    ensures { IfOk result (λ alert. alert ≡ spec.alert_with kept holder.now) }
{
    let desk = holder.copy(alloc)?;
    Ok(Alert {
        release: kept.release,
        desk,
        version: kept.version,
        opened: kept.opened,
        failing: kept.failing,
        ever: kept.ever,
        acknowledged: kept.acknowledged,
    })
}

fn told(alloc: Global, releases: &Releases, kept: KeptAlert) -> Result<Option<Alert>, OutOfMemory>
    ensures { IfOk result (λ alert. alert ≡ spec.alert_of releases.now.list kept) }
{
    match releases.get(kept.release) {
        Some(release) => Ok(Some(told_to(alloc, kept, &release.holder)?)),
        None => Ok(None),
    }
}

/// Restores stored alerts, each for the holder of its release.
pub(crate) fn alerts_told(
    alloc: Global,
    releases: &Releases,
    kept: Vec<KeptAlert>,
) -> Result<Vec<Alert>, OutOfMemory>
    ensures { IfOk result (λ alerts. alerts.items ≡ filter_map (spec.alert_of releases.now.list) kept.items) }
{
    let mut alerts = Vec::new(alloc);
    for alert in kept {
        if let Some(alert) = told(alloc, releases, alert)? {
            alerts.push(alert)?;
        }
    }
    Ok(alerts)
}
