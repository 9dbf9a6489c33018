ghost use Rattle.std.specs.Prelude.{◌≡◌, ◌≤◌, length, IfOk, IfSome, OnOk};
ghost use Rattle.std.specs.List.{AllByRecursion};
ghost use Rattle.std.specs.Option.{option_map};
ghost use Rattle.plan.specs.Check.{HasMoments, IsPlan};
ghost use Rattle.plan.specs.Texts.{HasMoment};
ghost use Rattle.desk_time.specs.Limits.{IsMoment};
ghost use Rattle.rules.specs.Due as spec;
ghost use Rattle.rules.specs.Due.{AreDue, IsNextDue, Lasts, Stays};
ghost use Rattle.rules.specs.Sights as seen;
ghost use Rattle.rules.specs.Sights.{last_of};

use crate::time::{Limit, Times};
use codes::least_of;
use desk_io::{Listed, OutOfMemory};
use desk_time::Minute;
use ops_tables::{Settings, Tables};
use plan::{Leg, Phase, Plan};
use std::alloc::Global;

// Returns the first minute past the limit, if it is after the moment.
fn due_after(moment: Minute, limit: Option<Limit>) -> Option<Minute>
    requires { IfSome limit (λ l. IsMoment l.since) }
    ensures { result ≡ spec.due_after moment (option_map last_of limit) }
{
    match limit {
        None => None,
        Some(limit) => {
            let due = limit.since + u64::from(limit.minutes) + 1;
            if moment < due { Some(due) } else { None }
        }
    }
}

fn due_of(times: &Times, number: u32, leg: &Leg) -> Option<Minute>
    requires phase { HasMoment times.now.phase }
    requires moments { HasMoments leg.now }
    ensures { result ≡ seen.due_of times.now number leg.now }
{
    let domestic_stop = due_after(times.moment, times.domestic_stop(number));
    let flag_stop = due_after(times.moment, times.flag_stop(number));
    let departure = due_after(times.moment, times.departure(number, leg));
    let arrival = due_after(times.moment, times.arrival(number, leg));
    least_of(
        domestic_stop,
        least_of(flag_stop, least_of(departure, arrival)),
    )
}

fn first_due(times: &Times, legs: &[Leg]) -> Option<Minute>
    requires phase { HasMoment times.now.phase }
    requires few { length legs.now ≤ 1000 }
    requires moments { AllByRecursion HasMoments legs.now }
    ensures { result ≡ seen.first_due times.now 1 legs.now }
{
    let mut least = None;
    for (i, leg) in legs.iter().enumerate() {
        least = least_of(least, due_of(times, i as u32 + 1, leg));
    }
    least
}

// Returns the first minute after the moment at which a rule of time begins to fail. It allocates nothing.
#[tactic(auto, using(crate::proofs::NextDue::first_is_next))]
fn due_in(plan: &Plan, phase: Phase, settings: Settings, moment: Minute) -> Option<Minute>
    requires plan { IsPlan plan.now }
    requires phase { HasMoment phase }
    ensures { result ≡ spec.next_due plan.now phase settings moment }
{
    let times = Times {
        settings,
        flight: plan.kind,
        phase,
        moment,
    };
    first_due(&times, plan.legs.as_slice())
}

/// Returns the first minute after the moment at which a rule of time begins to fail for the plan in this phase. It is
/// None if none will. A domestic flight has then stopped for more than an hour (14 CFR 121.593), or a flag flight for
/// more than six (14 CFR 121.595), without another release. Or the next leg departs, or the leg in flight arrives,
/// later than the settings allow. Until then the same reports and deferrals give the same findings, and this minute
/// stays the next. It allocates nothing.
pub fn next_due_by(plan: &Plan, phase: Phase, settings: Settings, moment: Minute) -> Option<Minute>
    requires plan { IsPlan plan.now }
    requires phase { HasMoment phase }
    ensures value { result ≡ spec.next_due plan.now phase settings moment }
    ensures due { IsNextDue plan.now phase settings moment result }
    ensures stays { Stays plan.now phase settings moment result }
    ensures lasts { Lasts plan.now phase settings moment result }
{
    due_in(plan, phase, settings, moment)
}

/// Calls `next_due_by` with the settings of the tables.
pub fn next_due(plan: &Plan, phase: Phase, tables: &Tables, moment: Minute) -> Option<Minute>
    requires plan { IsPlan plan.now }
    requires phase { HasMoment phase }
    ensures value { result ≡ spec.next_due plan.now phase tables.now.settings moment }
    ensures due { IsNextDue plan.now phase tables.now.settings moment result }
    ensures stays { Stays plan.now phase tables.now.settings moment result }
    ensures lasts { Lasts plan.now phase tables.now.settings moment result }
{
    next_due_by(plan, phase, tables.settings(), moment)
}

fn push_past(minutes: &mut Listed<Minute>, limit: Option<Limit>) -> Result<(), OutOfMemory>
    requires { IfSome limit (λ l. IsMoment l.since) }
    ensures { OnOk result (minutes.new ≡ spec.with_past minutes.old (option_map last_of limit)) }
{
    match limit {
        None => Ok(()),
        Some(limit) => minutes.push(limit.since + u64::from(limit.minutes) + 1),
    }
}

fn push_leg(
    minutes: &mut Listed<Minute>,
    times: &Times,
    number: u32,
    leg: &Leg,
) -> Result<(), OutOfMemory>
    requires phase { HasMoment times.now.phase }
    requires moments { HasMoments leg.now }
    ensures { OnOk result (minutes.new ≡ seen.dues_of times.now number minutes.old leg.now) }
{
    push_past(minutes, times.domestic_stop(number))?;
    push_past(minutes, times.flag_stop(number))?;
    push_past(minutes, times.departure(number, leg))?;
    push_past(minutes, times.arrival(number, leg))
}

fn push_legs(minutes: &mut Listed<Minute>, times: &Times, legs: &[Leg]) -> Result<(), OutOfMemory>
    requires phase { HasMoment times.now.phase }
    requires few { length legs.now ≤ 1000 }
    requires moments { AllByRecursion HasMoments legs.now }
    ensures { OnOk result (minutes.new ≡ seen.all_dues times.now 1 minutes.old legs.now) }
{
    for (i, leg) in legs.iter().enumerate() {
        push_leg(minutes, times, i as u32 + 1, leg)?;
    }
    Ok(())
}

fn minutes_in(
    alloc: Global,
    plan: &Plan,
    phase: Phase,
    settings: Settings,
) -> Result<Listed<Minute>, OutOfMemory>
    requires plan { IsPlan plan.now }
    requires phase { HasMoment phase }
    ensures { IfOk result (λ minutes. minutes ≡ spec.due_minutes plan.now phase settings) }
{
    let times = Times {
        settings,
        flight: plan.kind,
        phase,
        moment: 0,
    };
    let mut minutes = Listed::new(alloc);
    push_legs(&mut minutes, &times, plan.legs.as_slice())?;
    Ok(minutes)
}

/// Returns all minutes at which a rule of time begins to fail for the plan in this phase. The first of them after a
/// moment is the one that `next_due_by` returns for that moment.
pub fn due_minutes(
    alloc: Global,
    plan: &Plan,
    phase: Phase,
    settings: Settings,
) -> Result<Listed<Minute>, OutOfMemory>
    requires plan { IsPlan plan.now }
    requires phase { HasMoment phase }
    ensures value { IfOk result (λ minutes. minutes ≡ spec.due_minutes plan.now phase settings) }
    ensures due { IfOk result (AreDue plan.now phase settings) }
{
    minutes_in(alloc, plan, phase, settings)
}
