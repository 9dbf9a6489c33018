ghost use Rattle.std.specs.Prelude.{◌≡◌, ◌≤◌, ◌++◌, length, IfOk, OnOk};
ghost use Rattle.std.specs.List.{AllByRecursion};
ghost use Rattle.plan.specs.Check.{HasMoments, IsPlan};
ghost use Rattle.release_text.specs.Text as spec;
ghost use Rattle.release_text.specs.Legible.{Tells};

use desk_io::{OutOfMemory, Text, push_all};
use desk_time::show;
use plan::{Alternate, Attached, AttachedList, Kind, Leg, Plan, TakeoffAlternate};
use std::alloc::Global;

fn kind_word(kind: Kind) -> &'static [u8]
    ensures { result.now ≡ spec.kind_word kind }
{
    match kind {
        Kind::Domestic => b"DOMESTIC",
        Kind::Flag => b"FLAG",
    }
}

fn push_flight(
    alloc: Global,
    out: &mut Vec<u8>,
    plan: &Plan,
    revision: u64,
) -> Result<(), OutOfMemory>
    ensures { OnOk result (out.new.items ≡ out.old.items ++ spec.flight_line plan.now revision) }
{
    let number = revision.to_string(alloc)?;
    push_all(
        out,
        &[
            b"FLIGHT ",
            plan.flight.bytes(),
            b" REVISION ",
            number.as_bytes(),
            b" ",
        ],
    )?;
    push_all(out, &[kind_word(plan.kind), b"\n"])
}

fn push_aircraft(out: &mut Vec<u8>, plan: &Plan) -> Result<(), OutOfMemory>
    ensures { OnOk result (out.new.items ≡ out.old.items ++ spec.aircraft_line plan.now) }
{
    push_all(
        out,
        &[
            b"AIRCRAFT ",
            plan.tail.bytes(),
            b" CAPTAIN ",
            plan.captain.bytes(),
            b"\n",
        ],
    )
}

fn push_ends(alloc: Global, out: &mut Vec<u8>, number: u32, leg: &Leg) -> Result<(), OutOfMemory>
    ensures { OnOk result (out.new.items ≡ out.old.items ++ spec.ends_text number leg.now) }
{
    let number = number.to_string(alloc)?;
    push_all(
        out,
        &[b"LEG ", number.as_bytes(), b" ", &leg.from.bytes(), b" "],
    )?;
    push_all(out, &[&leg.to.bytes()])
}

fn push_times(out: &mut Vec<u8>, leg: &Leg) -> Result<(), OutOfMemory>
    requires { HasMoments leg.now }
    ensures { OnOk result (out.new.items ≡ out.old.items ++ spec.times_text leg.now) }
{
    push_all(out, &[b" ETD ", &show(leg.etd), b" ETA ", &show(leg.eta)])
}

fn push_minutes(alloc: Global, out: &mut Vec<u8>, leg: &Leg) -> Result<(), OutOfMemory>
    ensures { OnOk result (out.new.items ≡ out.old.items ++ spec.minutes_text leg.now) }
{
    let minutes = leg.minutes.to_string(alloc)?;
    push_all(out, &[b" MINUTES ", minutes.as_bytes(), b"\n"])
}

#[tactic(auto, unfolding(crate::specs::Text::leg_line))]
fn push_leg_line(
    alloc: Global,
    out: &mut Vec<u8>,
    number: u32,
    leg: &Leg,
) -> Result<(), OutOfMemory>
    requires { HasMoments leg.now }
    ensures { OnOk result (out.new.items ≡ out.old.items ++ spec.leg_line number leg.now) }
{
    push_ends(alloc, out, number, leg)?;
    push_times(out, leg)?;
    push_minutes(alloc, out, leg)
}

#[tactic(auto, unfolding(crate::specs::Text::takeoff_line))]
fn push_takeoff(
    alloc: Global,
    out: &mut Vec<u8>,
    alternate: Option<TakeoffAlternate>,
) -> Result<(), OutOfMemory>
    ensures { OnOk result (out.new.items ≡ out.old.items ++ spec.takeoff_line alternate) }
{
    match alternate {
        None => push_all(out, &[b"TAKEOFF ALTERNATE NONE\n"]),
        Some(alternate) => {
            let minutes = alternate.minutes.to_string(alloc)?;
            push_all(
                out,
                &[
                    b"TAKEOFF ALTERNATE ",
                    &alternate.station.bytes(),
                    b" MINUTES ",
                    minutes.as_bytes(),
                    b"\n",
                ],
            )
        }
    }
}

fn push_distance(alloc: Global, out: &mut Vec<u8>, alternate: &Alternate) -> Result<(), OutOfMemory>
    ensures { OnOk result (out.new.items ≡ out.old.items ++ spec.distance_text alternate.now) }
{
    let minutes = alternate.minutes.to_string(alloc)?;
    push_all(
        out,
        &[
            b"ALTERNATE ",
            &alternate.station.bytes(),
            b" MINUTES ",
            minutes.as_bytes(),
        ],
    )
}

#[tactic(auto, unfolding(crate::specs::Text::alternate_line))]
fn push_alternate(
    alloc: Global,
    out: &mut Vec<u8>,
    alternate: &Alternate,
) -> Result<(), OutOfMemory>
    ensures { OnOk result (out.new.items ≡ out.old.items ++ spec.alternate_line alternate.now) }
{
    let fuel = alternate.fuel.to_string(alloc)?;
    push_distance(alloc, out, alternate)?;
    push_all(out, &[b" FUEL ", fuel.as_bytes(), b"\n"])
}

fn push_each_alternate(
    alloc: Global,
    out: &mut Vec<u8>,
    alternates: &[Alternate],
) -> Result<(), OutOfMemory>
    ensures { OnOk result (out.new.items ≡ out.old.items ++ spec.alternate_lines alternates.now) }
{
    for alternate in alternates {
        push_alternate(alloc, out, alternate)?;
    }
    Ok(())
}

#[tactic(auto, unfolding(crate::specs::Text::alternates_text))]
fn push_alternates(
    alloc: Global,
    out: &mut Vec<u8>,
    alternates: &[Alternate],
) -> Result<(), OutOfMemory>
    ensures { OnOk result (out.new.items ≡ out.old.items ++ spec.alternates_text alternates.now) }
{
    if alternates.is_empty() {
        push_all(out, &[b"ALTERNATE NONE\n"])
    } else {
        push_each_alternate(alloc, out, alternates)
    }
}

fn push_planned_fuel(alloc: Global, out: &mut Vec<u8>, leg: &Leg) -> Result<(), OutOfMemory>
    ensures { OnOk result (out.new.items ≡ out.old.items ++ spec.planned_fuel leg.now) }
{
    let burn = leg.burn.to_string(alloc)?;
    let extra = leg.extra.to_string(alloc)?;
    push_all(
        out,
        &[b"BURN ", burn.as_bytes(), b" EXTRA ", extra.as_bytes()],
    )
}

fn push_supply(alloc: Global, out: &mut Vec<u8>, leg: &Leg) -> Result<(), OutOfMemory>
    ensures { OnOk result (out.new.items ≡ out.old.items ++ spec.supply leg.now) }
{
    let minimum = leg.minimum.to_string(alloc)?;
    let onboard = leg.onboard.to_string(alloc)?;
    push_all(
        out,
        &[
            b" MINIMUM ",
            minimum.as_bytes(),
            b" ONBOARD ",
            onboard.as_bytes(),
            b"\n",
        ],
    )
}

#[tactic(auto, unfolding(crate::specs::Text::fuel_line))]
fn push_fuel(alloc: Global, out: &mut Vec<u8>, leg: &Leg) -> Result<(), OutOfMemory>
    ensures { OnOk result (out.new.items ≡ out.old.items ++ spec.fuel_line leg.now) }
{
    push_planned_fuel(alloc, out, leg)?;
    push_supply(alloc, out, leg)
}

#[tactic(auto, unfolding(crate::specs::Text::leg_text))]
fn push_leg(alloc: Global, out: &mut Vec<u8>, number: u32, leg: &Leg) -> Result<(), OutOfMemory>
    requires { HasMoments leg.now }
    ensures { OnOk result (out.new.items ≡ out.old.items ++ spec.leg_text number leg.now) }
{
    push_leg_line(alloc, out, number, leg)?;
    push_takeoff(alloc, out, leg.takeoff_alternate)?;
    push_alternates(alloc, out, leg.alternates.as_slice())?;
    push_fuel(alloc, out, leg)
}

fn push_legs(alloc: Global, out: &mut Vec<u8>, legs: &[Leg]) -> Result<(), OutOfMemory>
    requires few { length legs.now ≤ 1000 }
    requires moments { AllByRecursion HasMoments legs.now }
    ensures { OnOk result (out.new.items ≡ out.old.items ++ spec.legs_text 1 legs.now) }
{
    for (i, leg) in legs.iter().enumerate() {
        push_leg(alloc, out, i as u32 + 1, leg)?;
    }
    Ok(())
}

#[tactic(auto, unfolding(crate::specs::Text::report_line))]
fn push_report(alloc: Global, out: &mut Vec<u8>, attached: &Attached) -> Result<(), OutOfMemory>
    ensures { OnOk result (out.new.items ≡ out.old.items ++ spec.report_line attached.now) }
{
    let number = attached.report.to_string(alloc)?;
    push_all(
        out,
        &[
            b"REPORT ",
            number.as_bytes(),
            b" ",
            attached.text.bytes(),
            b"\n",
        ],
    )
}

fn push_reports(alloc: Global, out: &mut Vec<u8>, attached: &[Attached]) -> Result<(), OutOfMemory>
    ensures { OnOk result (out.new.items ≡ out.old.items ++ spec.report_lines attached.now) }
{
    for report in attached {
        push_report(alloc, out, report)?;
    }
    Ok(())
}

#[tactic(auto, unfolding(crate::specs::Text::head_text))]
fn push_head(
    alloc: Global,
    out: &mut Vec<u8>,
    plan: &Plan,
    revision: u64,
) -> Result<(), OutOfMemory>
    ensures { OnOk result (out.new.items ≡ out.old.items ++ spec.head_text plan.now revision) }
{
    push_all(out, &[b"DISPATCH RELEASE\n"])?;
    push_flight(alloc, out, plan, revision)?;
    push_aircraft(out, plan)
}

#[tactic(auto, unfolding(crate::specs::Text::release_text))]
fn push_text(
    alloc: Global,
    out: &mut Vec<u8>,
    plan: &Plan,
    revision: u64,
    attached: &[Attached],
) -> Result<(), OutOfMemory>
    requires { IsPlan plan.now }
    ensures { OnOk result (out.new.items ≡ out.old.items ++ spec.release_text plan.now revision attached.now) }
{
    push_head(alloc, out, plan, revision)?;
    push_legs(alloc, out, plan.legs.as_slice())?;
    push_reports(alloc, out, attached)?;
    push_all(out, &[b"END\n"])
}

fn text_in_turn(
    alloc: Global,
    plan: &Plan,
    revision: u64,
    attached: &AttachedList,
) -> Result<Text, OutOfMemory>
    requires { IsPlan plan.now }
    ensures { IfOk result (λ t. t ≡ spec.release_text plan.now revision attached.now) }
{
    let mut out = Vec::new(alloc);
    push_text(alloc, &mut out, plan, revision, attached.as_slice())?;
    Ok(Text::from_vec(out))
}

/// Writes the text of a release in one revision (14 CFR 121.687). It contains the flight number, the kind, the
/// aircraft and the pilot in command. For each leg it contains airports, times, alternates and fuel in pounds. The
/// attached reports follow. Every line ends in a line feed. If no name contains a space or a line feed, the text
/// determines the plan and the revision number. It determines the reports too if each is one line.
pub fn text_of(
    alloc: Global,
    plan: &Plan,
    revision: u64,
    attached: &AttachedList,
) -> Result<Text, OutOfMemory>
    requires { IsPlan plan.now }
    ensures value { IfOk result (λ t. t ≡ spec.release_text plan.now revision attached.now) }
    ensures tells { IfOk result (λ t. Tells t plan.now revision attached.now) }
{
    text_in_turn(alloc, plan, revision, attached)
}
