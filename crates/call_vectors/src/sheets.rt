ghost use Rattle.plan.specs.Check.{IsPlan};

use crate::advice::{Evidence, evidence_in, phase_in, plan_in};
use crate::fields::text_at;
use crate::tables::Files;
use desk_io::OutOfMemory;
use plan::{Phase, Plan};
use serde_json::Value;
use sheet::sheet_of;
use sheet_text::sheet_text;
use std::alloc::Global;

// Whether the sheet of a plan has the text that the case expects.
fn is_written(
    alloc: Global,
    evidence: &Evidence,
    plan: &Plan,
    phase: Phase,
    wanted: &str,
) -> Result<bool, OutOfMemory>
    requires { IsPlan plan.now }
{
    let sheet = sheet_of(
        alloc,
        plan,
        phase,
        &evidence.reports,
        &evidence.deferrals,
        &evidence.tables,
        evidence.moment,
    )?;
    let text = sheet_text(alloc, sheet.as_slice())?;
    Ok(text.bytes() == wanted.as_bytes())
}

/// Checks a case with the keys `tables`, `now`, `reports`, `deferrals`, `plan`, `phase` and `sheet`, the sheet in words.
pub fn writes(alloc: Global, case: &Value, small: &Files) -> Result<bool, OutOfMemory> {
    let (Some(phase), Some(wanted)) = (phase_in(case), text_at(case, "sheet")) else {
        return Ok(false);
    };
    let Some(plan) = plan_in(alloc, case)? else {
        return Ok(false);
    };
    match evidence_in(alloc, case, small)? {
        None => Ok(false),
        Some(evidence) => is_written(alloc, &evidence, &plan, phase, wanted),
    }
}
