ghost use Rattle.std.specs.Prelude.{◌≡◌, IfOk, codes, option_and_then};
ghost use Rattle.plan.specs.Findings.{is_among};
ghost use Rattle.asks.specs.Fields.{id_at};
ghost use Rattle.release_json.specs.Releases.{bool_at};
ghost use Rattle.serde_json.specs.View.{view};
ghost use Rattle.records.specs.Reading as spec;
ghost use Rattle.records.specs.Valid as valid;

use crate::record::KeptAlert;
use asks::{has_members, id_at, list_at, moment_at};
use desk_io::OutOfMemory;
use desk_time::Minute;
use plan::{Finding, Findings, is_same};
use release_json::read_findings;
use serde_json::Value;
use std::alloc::Global;

// An alert without its release and its findings.
#[derive(Clone, Copy)]
struct Opening {
    acknowledged: bool,
    opened: Minute,
    version: u64,
}

fn bool_at(key: &str, value: &Value) -> Option<bool>
    ensures { result ≡ bool_at key.now (view value.now) }
{
    match value.get(key) {
        Some(found) => found.as_bool(),
        None => None,
    }
}

fn version_at(value: &Value) -> Option<u64>
    ensures { result ≡ option_and_then spec.from_one (id_at (codes "version") (view value.now)) }
{
    match id_at("version", value) {
        Some(version) if 1 <= version => Some(version),
        _ => None,
    }
}

#[tactic(auto, unfolding(crate::specs::Reading::opening_of))]
fn opening_of(value: &Value) -> Option<Opening>
    ensures { result ≡ spec.opening_of (view value.now) }
{
    let acknowledged = bool_at("acknowledged", value)?;
    let opened = moment_at("opened", value)?;
    let version = version_at(value)?;
    if has_members(5, value) {
        Some(Opening {
            acknowledged,
            opened,
            version,
        })
    } else {
        None
    }
}

fn findings_at(alloc: Global, key: &str, value: &Value) -> Result<Option<Findings>, OutOfMemory>
    ensures { IfOk result (λ findings. findings ≡ spec.findings_at key.now (view value.now)) }
{
    match list_at(key, value) {
        Some(items) => read_findings(alloc, items),
        None => Ok(None),
    }
}

fn is_among(findings: &[Finding], finding: &Finding) -> bool
    ensures { result ≡ is_among findings.now finding.now }
{
    for other in findings {
        if is_same(finding, other) {
            return true;
        }
    }
    false
}

fn are_among(others: &[Finding], findings: &[Finding]) -> bool
    ensures { result ≡ valid.are_among others.now findings.now }
{
    for finding in findings {
        if !is_among(others, finding) {
            return false;
        }
    }
    true
}

fn alert_with(release: u64, opening: Opening, failing: Findings, ever: Findings) -> KeptAlert
    ensures { result ≡ spec.alert_with release opening failing ever }
{
    KeptAlert {
        release,
        version: opening.version,
        opened: opening.opened,
        failing,
        ever,
        acknowledged: opening.acknowledged,
    }
}

/// Reads an alert from the JSON of its row.
pub(crate) fn alert_of(
    alloc: Global,
    release: u64,
    value: &Value,
) -> Result<Option<KeptAlert>, OutOfMemory>
    ensures { IfOk result (λ alert. alert ≡ spec.alert_of release (view value.now)) }
{
    let Some(opening) = opening_of(value) else {
        return Ok(None);
    };
    let Some(failing) = findings_at(alloc, "failing", value)? else {
        return Ok(None);
    };
    match findings_at(alloc, "ever", value)? {
        Some(ever) if are_among(ever.as_slice(), failing.as_slice()) => {
            Ok(Some(alert_with(release, opening, failing, ever)))
        }
        _ => Ok(None),
    }
}
