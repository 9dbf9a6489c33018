//! Plans of flights and their releases, the tests of a plan, the fuel and alternates that it needs, and findings.
#![tactic(auto)]

mod alternate_needs;
mod change;
mod check;
mod findings;
mod flights;
mod fuel;
mod release;
mod texts;

pub use alternate_needs::{in_range, is_marginal, needs_destination, needs_takeoff};
pub use change::check_change;
pub use check::{BadPlan, PlanWhy, check_plan};
pub use findings::{EVERY_RULE, Finding, Findings, Rule, is_before, is_same, rules_of_legs};
pub use flights::{Alternate, Alternates, Kind, Leg, Legs, Plan, TakeoffAlternate};
pub use fuel::{Basis, required};
pub use release::{
    Attached, AttachedList, Phase, Release, Revision, Signature, Standing, is_active, is_flying,
    standing_of,
};
pub use texts::{finding_text, phase_text};
