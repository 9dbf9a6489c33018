ghost use Rattle.std.specs.Prelude.{◌≡◌, None, Some, MatchResult, OnOk};
ghost use Rattle.plan.specs.Check.{IsPlan};
ghost use Rattle.plan.specs.Phases.{PhaseFits};
ghost use Rattle.plan.specs.declared.release.Phase.TheVariants.{Flying};
ghost use Rattle.redispatch.specs.Filing as spec;
ghost use Rattle.redispatch.specs.Filing.{HasPlanInForce, IsFinalPlan, MayBeFiled, final_fault, refusal};

use desk_io::OutOfMemory;
use ops_tables::Tables;
use plan::{
    BadPlan, Phase, Plan, PlanWhy, Release, Standing, check_change, check_plan, is_active,
    standing_of,
};

/// Why a final plan isn't filed.
#[derive(Clone, Copy, Debug, PartialEq, Eq)]
pub enum FileFault {
    /// The release isn't active.
    NotActive,
    /// The first test that the leg or the plan fails.
    Bad(BadPlan),
    /// Memory ran out.
    OutOfMemory,
}

impl From<OutOfMemory> for FileFault {
    ghost use Rattle.redispatch.specs.declared.filing.FileFault.TheVariants.{OutOfMemory as FileMemory};

    ghost from_gives = { λ _ e. e ≡ FileMemory };

    fn from(_: OutOfMemory) -> Self {
        FileFault::OutOfMemory
    }
}

impl From<BadPlan> for FileFault {
    ghost use Rattle.redispatch.specs.declared.filing.FileFault.TheVariants.{Bad as FileBad};

    ghost from_gives = { λ bad e. e ≡ FileBad bad };

    fn from(bad: BadPlan) -> Self {
        FileFault::Bad(bad)
    }
}

fn is_flown(phase: Phase, leg: u32) -> bool
    ensures { result ≡ spec.is_flown phase leg }
{
    match standing_of(phase, leg) {
        Standing::Flown => true,
        Standing::Ahead | Standing::InFlight => false,
    }
}

fn lacks_leg(plan: &Plan, leg: u32) -> bool
    ensures { result ≡ spec.lacks_leg plan.now leg }
{
    leg == 0 || plan.legs.as_slice().len() < leg as usize
}

fn leg_why(phase: Phase, active: &Plan, leg: u32) -> Option<PlanWhy>
    ensures { result ≡ spec.leg_why phase active.now leg }
{
    if lacks_leg(active, leg) {
        Some(PlanWhy::Count)
    } else if is_flown(phase, leg) {
        Some(PlanWhy::Flown)
    } else {
        None
    }
}

// Tests the number of the leg for which a final plan is filed.
fn check_leg(phase: Phase, active: &Plan, leg: u32) -> Result<(), BadPlan>
    ensures { MatchResult result (λ _. spec.leg_fault phase active.now leg ≡ None)
        (λ bad. spec.leg_fault phase active.now leg ≡ Some bad) }
{
    match leg_why(phase, active, leg) {
        None => Ok(()),
        Some(why) => Err(BadPlan { leg, why }),
    }
}

// Tests a final plan of a leg beside the active plan.
#[tactic(auto, unfolding(crate::specs::Filing::final_fault))]
fn check_final(
    phase: Phase,
    active: &Plan,
    leg: u32,
    last: &Plan,
    tables: &Tables,
) -> Result<(), BadPlan>
    requires active { IsPlan active.now }
    requires last { IsPlan last.now }
    ensures fault { MatchResult result (λ _. final_fault tables.now phase active.now leg last.now ≡ None)
        (λ bad. final_fault tables.now phase active.now leg last.now ≡ Some bad) }
    ensures may { OnOk result (IsFinalPlan tables.now phase active.now leg last.now) }
{
    check_leg(phase, active, leg)?;
    check_plan(last, tables)?;
    check_change(last, active, Phase::Flying { leg })
}

/// Tests whether a final plan may be filed for a leg of a release. The first failed test is the error.
#[tactic(auto, unfolding(crate::specs::Filing::refusal))]
pub(crate) fn check_filing(
    release: &Release,
    leg: u32,
    last: &Plan,
    tables: &Tables,
) -> Result<(), FileFault>
    requires release { HasPlanInForce release.now }
    requires last { IsPlan last.now }
    ensures fault { MatchResult result (λ _. refusal tables.now release.now leg last.now ≡ None)
        (λ fault. refusal tables.now release.now leg last.now ≡ Some fault) }
    ensures may { OnOk result (MayBeFiled tables.now release.now leg last.now) }
{
    if !is_active(release.phase) {
        return Err(FileFault::NotActive);
    }
    match &release.active {
        Some(active) => Ok(check_final(release.phase, &active.plan, leg, last, tables)?),
        None => unreachable!(),
    }
}
