ghost use Rattle.std.specs.Prelude.{◌≡◌, ◌++◌, IfOk, OnOk};
ghost use Rattle.desk_state.specs.Texts as spec;

use desk_io::{OutOfMemory, push_all};
use plan::{Finding, finding_text};
use std::alloc::Global;

fn push_spaced(alloc: Global, out: &mut Vec<u8>, findings: &[Finding]) -> Result<(), OutOfMemory>
    ensures { OnOk result (out.new.items ≡ out.old.items ++ spec.spaced_findings findings.now) }
{
    for finding in findings {
        let text = finding_text(alloc, finding)?;
        push_all(out, &[b" ", text.bytes()])?;
    }
    Ok(())
}

/// Writes findings, each after a blank, or " none".
#[tactic(auto, unfolding(desk_state::specs::Texts::findings_text))]
pub(crate) fn findings_text(alloc: Global, findings: &[Finding]) -> Result<Vec<u8>, OutOfMemory>
    ensures { IfOk result (λ v. v.items ≡ spec.findings_text findings.now) }
{
    let mut out = Vec::new(alloc);
    if findings.is_empty() {
        out.extend_from_slice(b" none")?;
    } else {
        push_spaced(alloc, &mut out, findings)?;
    }
    Ok(out)
}

/// Returns "ack" for an acknowledged alert, and "open" for any other.
pub(crate) fn mark_text(acknowledged: bool) -> &'static [u8]
    ensures { result.now ≡ spec.mark_text acknowledged }
{
    if acknowledged { b"ack" } else { b"open" }
}
