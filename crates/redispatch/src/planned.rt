ghost use Rattle.std.specs.Prelude.{◌≡◌, ◌+◌, [], IfOk, IfSome, IsSome, IsTrue, MatchOption, MatchResult, None, OnErr, OnOk, ℕ, Some, if◌then◌else◌, ◌==◌};
ghost use Rattle.std.specs.List.{AllByRecursion};
ghost use Rattle.asks.specs.Forms.{CallHasForms, HasForms};
ghost use Rattle.desk_io.specs.ById.{AreRising};
ghost use Rattle.plan.specs.Check.{IsPlan};
ghost use Rattle.plan.specs.Phases.{is_active};
ghost use Rattle.rules.specs.Grounds.{grounds_held};
ghost use Rattle.redispatch.specs.Filing.{HasPlanInForce, IsFaultOf, MayBeFiled, refusal};
ghost use Rattle.redispatch.specs.Filed.{final_plan, HasFormedPlan, HasPlan, filed_for, once_filed, release_of};
ghost use Rattle.redispatch.specs.Filed as spec;
ghost use Rattle.redispatch.specs.Judging.{AreInitial, AreLast};
ghost use Rattle.redispatch.specs.Turns.{amendment, IsNoneAsFiled, IsSameCall};

use crate::filing::{FileFault, check_filing};
use asks::{Ask, Call};
use deferrals::Deferrals;
use desk_io::{ById, Copied, HasId, OutOfMemory};
use desk_time::Minute;
use facts::Reports;
use ops_tables::Tables;
use plan::{Findings, Phase, Plan, Release};
use rules::{Steps, judge};
use std::alloc::Global;
use std::marker::Model;
use std::sync::ledger::Ledger;

/// A final plan that is filed for a leg of a release.
#[derive(Debug, Drop)]
pub struct Filed {
    /// The number of the release.
    pub release: u64,
    /// The leg in which the plan is to be taken up, from 1.
    pub leg: u32,
    /// The final plan.
    pub plan: Plan,
}

impl Copied for Filed {
    fn copy(&self, alloc: Global) -> Result<Filed, OutOfMemory> {
        Ok(Filed {
            release: self.release,
            leg: self.leg,
            plan: self.plan.copy(alloc)?,
        })
    }
}

impl HasId for Filed {
    ghost id_of = { λ f. f.release };

    // Each release has at most one final plan.
    fn id(&self) -> u64 {
        self.release
    }
}

/// What two judgements found.
#[derive(Debug, Drop)]
pub struct Both {
    /// The rules that the active plan fails in the phase of its release.
    pub initial: Findings,
    /// The rules that the final plan fails while its leg is in flight.
    pub last: Findings,
}

/// The final plans that are filed, at most one for each release. Contracts model them as a list in increasing order of
/// their releases.
#[derive(Drop)]
pub struct Planned {
    filed: ById<Filed>,
}

impl Model for Planned {
    ghost use Rattle.std.specs.Prelude.{List};
    ghost use Rattle.std.specs.List.{AllByRecursion};
    ghost use Rattle.redispatch.specs.declared.planned.Filed.{Filed};
    ghost use Rattle.redispatch.specs.Filed.{HasPlan};

    ghost Value = { List Filed };

    ghost view = { λ p. p.filed.list };

    ghost invariant = { λ p. AllByRecursion HasPlan p.filed.list };
}

impl Planned {
    /// Creates an empty list. Allocates no memory.
    pub fn new(alloc: Global) -> Planned
        ensures { result ≡ [] }
    {
        Planned {
            filed: ById::new(alloc),
        }
    }

    fn made_again(alloc: Global, filed: Vec<Filed>) -> Result<Planned, OutOfMemory>
        requires { AllByRecursion HasPlan filed.items }
        ensures { IfOk result (λ p. p ≡ spec.filed_after [] filed.items) }
    {
        let mut planned = Planned::new(alloc);
        for plan in filed {
            planned.put(plan)?;
        }
        Ok(planned)
    }

    /// Makes the list again from plans in the order in which they were filed. A later plan of a release replaces an
    /// earlier one.
    pub fn from_filed(alloc: Global, filed: Vec<Filed>) -> Result<Planned, OutOfMemory>
        requires { AllByRecursion HasPlan filed.items }
        ensures value { IfOk result (λ p. p ≡ spec.filed_after [] filed.items) }
        ensures forms { AllByRecursion HasFormedPlan filed.items → IfOk result (AllByRecursion HasFormedPlan) }
    {
        Planned::made_again(alloc, filed)
    }

    /// Returns the filed plans in increasing order of their releases. Filed again in this order, they make the same
    /// list.
    #[tactic(auto, using(crate::proofs::FiledLaws::filed_again))]
    pub fn as_slice(&self) -> &[Filed]
        ensures value { result.now ≡ self.now }
        ensures rising { AreRising release_of self.now }
        ensures plans { AllByRecursion HasPlan self.now }
        ensures again { spec.filed_after [] self.now ≡ self.now }
    {
        self.filed.as_slice()
    }

    /// Returns the leg and the final plan that are filed for a release, by binary search.
    pub fn find(&self, release: u64) -> Option<(u32, &Plan)>
        ensures value { MatchOption result (filed_for release self.now ≡ None)
            (λ found. filed_for release self.now ≡ Some (final_plan release found.0 found.1.now)) }
        ensures plan { IfSome result (λ found. IsPlan found.1.now) }
        ensures forms { AllByRecursion HasFormedPlan self.now → IfSome result (λ found. HasForms found.1.now) }
    {
        let filed = self.filed.get(release)?;
        Some((filed.leg, &filed.plan))
    }

    // Files a plan in place of an earlier one of its release.
    fn put(&mut self, filed: Filed) -> Result<(), OutOfMemory>
        requires { HasPlan filed }
        ensures ok { OnOk result (self.new ≡ once_filed filed self.old) }
        ensures err { OnErr result (self.new ≡ self.old) }
    {
        self.filed.reserve(1)?;
        self.filed.put_reserved(filed);
        Ok(())
    }

    /// Files a final plan for a leg of an active release (14 CFR 121.631). It replaces an earlier final plan of the
    /// release. The first failed test is the error: the leg must be one of the active plan and not be flown, the plan
    /// must pass its own tests, and it must pass those of an amendment while the leg is in flight. After an error the
    /// plan is dropped and nothing changes.
    #[tactic(auto, using(crate::proofs::FiledLaws::found_once_filed))]
    pub fn file(
        &mut self,
        release: &Release,
        leg: u32,
        last: Plan,
        tables: &Tables,
    ) -> Result<(), FileFault>
        requires release { HasPlanInForce release.now }
        requires forms { IsPlan last }
        ensures refusal { MatchResult result (λ _. refusal tables.now release.now leg last ≡ None)
            (IsFaultOf (refusal tables.now release.now leg last)) }
        ensures filed { OnOk result (self.new ≡ once_filed (final_plan release.now.id leg last) self.old) }
        ensures err { OnErr result (self.new ≡ self.old) }
        ensures may { OnOk result (MayBeFiled tables.now release.now leg last) }
        ensures each { OnOk result ((id : ℕ) → filed_for id self.new
            ≡ (if release.now.id == id then Some (final_plan release.now.id leg last) else filed_for id self.old)) }
        ensures forms { HasForms last → AllByRecursion HasFormedPlan self.old
            → AllByRecursion HasFormedPlan self.new }
    {
        check_filing(release, leg, &last, tables)?;
        self.put(Filed {
            release: release.id,
            leg,
            plan: last,
        })?;
        Ok(())
    }

    /// Judges the active plan of a release in its phase, and the final plan that is filed for it while its leg is in
    /// flight. It counts two steps, even if memory runs out.
    pub fn judge_both<L: Ledger>(
        &self,
        alloc: Global,
        release: &Release,
        facts: &Reports,
        deferrals: &Deferrals,
        tables: &Tables,
        moment: Minute,
        steps: &mut Steps<L>,
    ) -> Result<Both, OutOfMemory>
        requires release { HasPlanInForce release.now }
        requires active { IsTrue (is_active release.now.phase) }
        requires filed { IsSome (filed_for release.now.id self.now) }
        ensures initial { IfOk result (λ both. AreInitial release.now
            (grounds_held tables.now facts.now.reports deferrals.now.list moment) both.initial) }
        ensures last { IfOk result (λ both. AreLast (filed_for release.now.id self.now)
            (grounds_held tables.now facts.now.reports deferrals.now.list moment) both.last) }
        ensures steps { steps.new ≡ steps.old + 2 }
    {
        let Some(active) = &release.active else {
            unreachable!()
        };
        let Some((leg, last)) = self.find(release.id) else {
            unreachable!()
        };
        let flying = Phase::Flying { leg };
        let phase = release.phase;
        let initial = judge(
            alloc,
            &active.plan,
            phase,
            facts,
            deferrals,
            tables,
            moment,
            steps,
        );
        let last = judge(alloc, last, flying, facts, deferrals, tables, moment, steps);
        Ok(Both {
            initial: initial?,
            last: last?,
        })
    }

    /// Returns the amendment for which a Prepare call stands when it takes up a final plan: the same call with the ask
    /// to amend that release with the final plan. It is None if nothing is filed for the release, and for another
    /// ask.
    pub fn amendment(&self, alloc: Global, call: &Call) -> Result<Option<Call>, OutOfMemory>
        ensures value { IfOk result (λ a. a ≡ amendment self.now call.now) }
        ensures same { IfOk result (λ a. IfSome a (IsSameCall call.now)) }
        ensures none { IfOk result (IsNoneAsFiled self.now call.now.ask) }
        ensures forms { AllByRecursion HasFormedPlan self.now → CallHasForms call.now
            → IfOk result (λ a. IfSome a CallHasForms) }
    {
        let Ask::Prepare { release } = &call.ask else {
            return Ok(None);
        };
        let Some((_, plan)) = self.find(*release) else {
            return Ok(None);
        };
        Ok(Some(Call {
            actor: call.actor.copy(alloc)?,
            key: call.key.copy(alloc)?,
            number: call.number,
            ask: Ask::Amend {
                release: *release,
                plan: plan.copy(alloc)?,
            },
        }))
    }
}
