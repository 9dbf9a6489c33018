ghost use Rattle.std.specs.Prelude.{◌≡◌, ◌≤◌, length, IfOk};
ghost use Rattle.ops_tables.specs.Limits.{FitsType};
ghost use Rattle.rules.specs.Grounds.{deferrals_of, grounds_of};
ghost use Rattle.rules.specs.Circumstances.{case_of};
ghost use Rattle.rules.specs.Sights.{case_by, IsWithin};

use crate::evidence::Evidence;
use deferrals::{DEFERRAL_LIMIT, Deferral, Limits, limits_on};
use desk_io::OutOfMemory;
use ops_tables::TypeRow;
use plan::{Kind, Plan};
use std::alloc::Global;

/// The circumstances in which the legs of a plan are judged, looked up once for all legs.
#[derive(Drop)]
pub(crate) struct Circumstances<'a> {
    /// The evidence by which the plan is judged.
    pub evidence: Evidence<'a>,
    /// The kind of operation.
    pub flight: Kind,
    /// The type of the aircraft.
    pub aircraft: &'a TypeRow,
    /// The captain's hours as pilot in command in the type.
    pub hours: u32,
    /// The open deferrals of the aircraft in the order of their ids.
    pub deferred: Vec<&'a Deferral>,
    /// What these deferrals cost in fuel and capabilities.
    pub limits: Limits,
}

impl<'a> Circumstances<'a> {
    /// Looks up the circumstances of a plan whose aircraft has this type.
    #[tactic(auto, using(crate::proofs::OpenLaws::opened_count))]
    pub(crate) fn of(
        alloc: Global,
        evidence: Evidence<'a>,
        plan: &Plan,
        aircraft: &'a TypeRow,
    ) -> Result<Circumstances<'a>, OutOfMemory>
        requires few { length (deferrals_of evidence) ≤ DEFERRAL_LIMIT }
        requires fits { FitsType aircraft.now }
        ensures value { IfOk result (λ c. case_by c ≡ case_of (grounds_of evidence.entry) plan.now aircraft.now) }
        ensures within { IfOk result IsWithin }
    {
        let deferred = evidence.deferrals_on(alloc, plan.tail.bytes())?;
        let limits = limits_on(alloc, &deferred, aircraft.kind.bytes(), evidence.tables)?;
        let hours = evidence
            .tables
            .hours(plan.captain.bytes(), aircraft.kind.bytes());
        Ok(Circumstances {
            evidence,
            flight: plan.kind,
            aircraft,
            hours,
            deferred,
            limits,
        })
    }
}
