ghost use Rattle.std.specs.Prelude.{◌≡◌, IfOk, IfSome};
ghost use Rattle.plan.specs.Check.{IsPlan};
ghost use Rattle.asks.specs.Forms.{HasForms};
ghost use Rattle.desk_json.specs.Plans.{plan_in, AnswersPlan, IsPlanAgain};
ghost use Rattle.desk_json.specs.declared.plans.PlanText.TheVariants.{OutOfMemory as TextMemory};

use asks::{document_of, read_plan as plan_of};
use desk_io::OutOfMemory;
use plan::Plan;
use std::alloc::Global;

/// Why a text can't be read as a plan.
#[derive(Debug, Drop)]
pub enum PlanText {
    /// It isn't the JSON of a plan.
    NotPlan,
    /// Memory ran out.
    OutOfMemory,
}

impl From<OutOfMemory> for PlanText {
    ghost from_gives = { λ _ e. e ≡ TextMemory };

    fn from(_: OutOfMemory) -> Self {
        PlanText::OutOfMemory
    }
}

#[tactic(auto, unfolding(crate::specs::Plans::plan_in))]
fn plan_in(alloc: Global, bytes: &[u8]) -> Result<Option<Plan>, OutOfMemory>
    ensures plan { IfOk result (λ p. p ≡ plan_in bytes.now) }
    ensures form { IfOk result (λ p. IfSome p IsPlan) }
{
    match document_of(alloc, bytes)? {
        Some(document) => plan_of(alloc, document.root()),
        None => Ok(None),
    }
}

fn plan_or_fault(alloc: Global, bytes: &[u8]) -> Result<Plan, PlanText>
    ensures answer { AnswersPlan (plan_in bytes.now) result }
    ensures form { IfOk result IsPlan }
{
    match plan_in(alloc, bytes)? {
        Some(plan) => Ok(plan),
        None => Err(PlanText::NotPlan),
    }
}

/// Reads a plan. The text is JSON in UTF-8, an object with exactly the keys of a plan, each with a well-formed value.
/// The plan may still fail the tests that a draft must pass.
pub fn read_plan(alloc: Global, bytes: &[u8]) -> Result<Plan, PlanText>
    ensures answer { AnswersPlan (plan_in bytes.now) result }
    // The plan has at most 1,000 legs, and its moments are within the range that the desk reads.
    ensures form { IfOk result IsPlan }
    // Names and stations are well-formed, and numbers are within their limits.
    ensures forms { IfOk result HasForms }
    // The JSON of a plan is read back as that plan.
    ensures again { IsPlanAgain bytes.now result }
{
    plan_or_fault(alloc, bytes)
}
