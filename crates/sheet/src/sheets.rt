ghost use Rattle.std.specs.Prelude.{◌≡◌, ◌≤◌, ◌++◌, ◌∷◌, [], length, map, IfOk, OnOk, IfSome, Some, None};
ghost use Rattle.std.specs.List.{AllByRecursion};
ghost use Rattle.std.specs.Option.{option_copied, option_map};
ghost use Rattle.ops_tables.specs.Limits.{FitsType};
ghost use Rattle.plan.specs.Check.{HasMoments, IsPlan};
ghost use Rattle.plan.specs.Findings.{AreInOrder, rules_of_legs};
ghost use Rattle.rules.specs.Circumstances.{case_of};
ghost use Rattle.rules.specs.Grounds.{grounds_held};
ghost use Rattle.rules.specs.Judgement.{case_for, findings_of, is_of_departure};
ghost use Rattle.sheet.specs.Applies.{HoldByRegulation, IsWhole};
ghost use Rattle.sheet.specs.Circumstances.{case_by, grounds_of, IsWithin};
ghost use Rattle.sheet.specs.Lines.{failing, key};
ghost use Rattle.sheet.specs.Sheet as spec;
ghost use Rattle.sheet.specs.World.{IsOfWorld};

use crate::circumstances::{Circumstances, World};
use crate::fuel::push_board;
use crate::lines::{Compared, Line, Sheet, TablesFault};
use crate::time::Times;
use deferrals::Deferrals;
use desk_io::{Listed, OutOfMemory};
use desk_time::Minute;
use facts::Reports;
use ops_tables::{Tables, TypeRow};
use plan::{Leg, Phase, Plan, Rule, Standing, check_plan, rules_of_legs, standing_of};
use std::alloc::Global;

// Returns true if the rule compares only legs that haven't departed.
fn is_of_departure(rule: Rule) -> bool
    ensures { result ≡ is_of_departure rule }
{
    match rule {
        Rule::No4 | Rule::No5 | Rule::No6 | Rule::No11 | Rule::No12 => true,
        _ => false,
    }
}

impl<'a> Circumstances<'a> {
    // Adds the lines of a rule on weather or alternates.
    fn push_of(
        &self,
        alloc: Global,
        sheet: &mut Sheet,
        rule: Rule,
        ahead: bool,
        number: u32,
        leg: &Leg,
    ) -> Result<(), OutOfMemory>
        requires within { IsWithin self.now }
        requires moments { HasMoments leg.now }
        ensures { OnOk result (sheet.new ≡ sheet.old ++ spec.lines_of rule (case_by self.now) ahead number leg.now) }
    {
        match rule {
            Rule::No1 | Rule::No2 => Ok(()),
            Rule::No3 => self.push_landing(alloc, sheet, number, leg),
            Rule::No4 => self.push_departure(alloc, sheet, number, leg),
            Rule::No5 => self.push_range(alloc, sheet, number, leg),
            Rule::No6 => self.push_takeoff(alloc, sheet, number, leg),
            Rule::No7 => self.push_domestic_need(sheet, number, leg),
            Rule::No8 => self.push_second(alloc, sheet, number, leg),
            Rule::No9 => self.push_flag_need(sheet, number, leg),
            Rule::No10 => self.push_alternates(alloc, sheet, number, leg),
            Rule::No11 => self.push_limits(alloc, sheet, number, leg),
            Rule::No12 => self.push_repairs(alloc, sheet, number, leg),
            Rule::No13 => self.push_airports(alloc, sheet, ahead, number, leg),
            Rule::No14 => self.push_domestic(sheet, number, leg),
            Rule::No15 => self.push_flag(sheet, number, leg),
            Rule::No16 => push_board(sheet, number, leg),
            Rule::No17 | Rule::No18 | Rule::No19 => Ok(()),
        }
    }

    // Adds the lines of a rule on a leg in this state.
    fn push_at(
        &self,
        alloc: Global,
        sheet: &mut Sheet,
        rule: Rule,
        standing: Standing,
        number: u32,
        leg: &Leg,
    ) -> Result<(), OutOfMemory>
        requires within { IsWithin self.now }
        requires moments { HasMoments leg.now }
        ensures { OnOk result (sheet.new ≡ sheet.old ++ spec.lines_at rule (case_by self.now) standing number leg.now) }
    {
        match standing {
            Standing::Ahead => self.push_of(alloc, sheet, rule, true, number, leg),
            Standing::InFlight => {
                if is_of_departure(rule) {
                    Ok(())
                } else {
                    self.push_of(alloc, sheet, rule, false, number, leg)
                }
            }
            Standing::Flown => Ok(()),
        }
    }
}

// Adds the lines of a rule on a leg, except those of the rules of time. Without circumstances there are none.
fn push_in_case(
    alloc: Global,
    sheet: &mut Sheet,
    circumstances: Option<&Circumstances<'_>>,
    rule: Rule,
    standing: Standing,
    number: u32,
    leg: &Leg,
) -> Result<(), OutOfMemory>
    requires within { IfSome (option_copied circumstances) IsWithin }
    requires moments { HasMoments leg.now }
    ensures { OnOk result (sheet.new ≡ sheet.old ++ spec.lines_in_case rule (option_map case_by
        (option_copied circumstances.entry)) standing number leg.now) }
{
    match circumstances {
        None => Ok(()),
        Some(circumstances) => circumstances.push_at(alloc, sheet, rule, standing, number, leg),
    }
}

// Adds all lines of a rule on a leg.
fn push_for(
    alloc: Global,
    sheet: &mut Sheet,
    times: &Times,
    circumstances: Option<&Circumstances<'_>>,
    rule: Rule,
    number: u32,
    leg: &Leg,
) -> Result<(), OutOfMemory>
    requires within { IfSome (option_copied circumstances) IsWithin }
    requires moments { HasMoments leg.now }
    ensures { OnOk result (sheet.new ≡ sheet.old ++ spec.lines_with times.now (option_map case_by
        (option_copied circumstances.entry)) rule number leg.now) }
{
    times.push_time(sheet, rule, number, leg)?;
    let standing = standing_of(times.phase, number);
    push_in_case(alloc, sheet, circumstances, rule, standing, number, leg)
}

// Adds the lines of a rule, leg by leg.
fn push_rule(
    alloc: Global,
    sheet: &mut Sheet,
    times: &Times,
    circumstances: Option<&Circumstances<'_>>,
    rule: Rule,
    legs: &[Leg],
) -> Result<(), OutOfMemory>
    requires within { IfSome (option_copied circumstances) IsWithin }
    requires few { length legs.now ≤ 1000 }
    requires moments { AllByRecursion HasMoments legs.now }
    ensures { OnOk result (sheet.new ≡ sheet.old ++ spec.lines_from (spec.lines_with times.now (option_map case_by
        (option_copied circumstances.entry))) rule 1 legs.now) }
{
    for (i, leg) in legs.iter().enumerate() {
        push_for(alloc, sheet, times, circumstances, rule, i as u32 + 1, leg)?;
    }
    Ok(())
}

// Returns the lines of these rules on these legs.
fn lines_in(
    alloc: Global,
    times: &Times,
    circumstances: Option<&Circumstances<'_>>,
    rules: &[Rule],
    legs: &[Leg],
) -> Result<Sheet, OutOfMemory>
    requires within { IfSome (option_copied circumstances) IsWithin }
    requires few { length legs.now ≤ 1000 }
    requires moments { AllByRecursion HasMoments legs.now }
    ensures { IfOk result (λ s. s ≡ spec.lines_by (spec.lines_with times.now (option_map case_by
        (option_copied circumstances.entry))) rules.now legs.now) }
{
    let mut sheet = Listed::new(alloc);
    for rule in rules {
        push_rule(alloc, &mut sheet, times, circumstances, *rule, legs)?;
    }
    Ok(sheet)
}

// Returns the lines of all rules on the legs of a plan.
fn lines_of_legs(
    alloc: Global,
    times: &Times,
    circumstances: Option<&Circumstances<'_>>,
    plan: &Plan,
) -> Result<Sheet, OutOfMemory>
    requires plan { IsPlan plan.now }
    requires within { IfSome (option_copied circumstances) IsWithin }
    ensures { IfOk result (λ s. s ≡ spec.lines_by (spec.lines_with times.now (option_map case_by
        (option_copied circumstances.entry))) rules_of_legs plan.now.legs) }
{
    lines_in(
        alloc,
        times,
        circumstances,
        rules_of_legs(),
        plan.legs.as_slice(),
    )
}

// Returns the lines of a plan, with this last line. Without circumstances the other lines are those of the rules of
// time.
fn sheet_with(
    alloc: Global,
    times: &Times,
    circumstances: Option<&Circumstances<'_>>,
    plan: &Plan,
    last: Line,
) -> Result<Sheet, OutOfMemory>
    requires plan { IsPlan plan.now }
    requires within { IfSome (option_copied circumstances) IsWithin }
    ensures { IfOk result (λ s. s ≡ spec.lines_by (spec.lines_with times.now (option_map case_by
        (option_copied circumstances.entry))) rules_of_legs plan.now.legs ++ last ∷ []) }
{
    let mut sheet = lines_of_legs(alloc, times, circumstances, plan)?;
    sheet.push(last)?;
    Ok(sheet)
}

fn tables_line(leg: u32, fault: Option<TablesFault>) -> Line
    ensures { result ≡ spec.fault_line leg fault }
{
    Line {
        rule: Rule::No19,
        leg,
        place: 0,
        compared: Compared::Tables(fault),
    }
}

// Returns the lines of a plan that passes its tests and whose aircraft has this type.
fn sheet_in_case<'a>(
    alloc: Global,
    times: &Times,
    world: World<'a>,
    plan: &Plan,
    aircraft: &'a TypeRow,
) -> Result<Sheet, OutOfMemory>
    requires plan { IsPlan plan.now }
    requires fits { FitsType aircraft.now }
    ensures { IfOk result (λ s. s ≡ spec.lines_by (spec.lines_with times.now (Some (case_of (grounds_of world.entry)
        plan.now aircraft.now))) rules_of_legs plan.now.legs ++ spec.fault_line 0 None ∷ []) }
{
    let circumstances = Circumstances::of(alloc, world, plan, aircraft)?;
    sheet_with(
        alloc,
        times,
        Some(&circumstances),
        plan,
        tables_line(0, None),
    )
}

// Returns the lines of a plan.
fn sheet_seen(
    alloc: Global,
    times: &Times,
    world: World<'_>,
    plan: &Plan,
) -> Result<Sheet, OutOfMemory>
    requires plan { IsPlan plan.now }
    ensures { IfOk result (λ s. s ≡ spec.lines_by (spec.lines_with times.now (case_for plan.now
        (grounds_of world.entry))) rules_of_legs plan.now.legs ++ spec.line_of_tables plan.now (grounds_of world.entry)
        ∷ []) }
{
    let tables = world.tables;
    match check_plan(plan, tables) {
        Err(bad) => {
            let line = tables_line(bad.leg, Some(TablesFault::Plan(bad.why)));
            sheet_with(alloc, times, None, plan, line)
        }
        Ok(()) => match tables.type_of(plan.tail.bytes()) {
            None => {
                let line = tables_line(0, Some(TablesFault::NoType));
                sheet_with(alloc, times, None, plan, line)
            }
            Some(aircraft) => sheet_in_case(alloc, times, world, plan, aircraft),
        },
    }
}

fn times_of(plan: &Plan, phase: Phase, tables: &Tables, moment: Minute) -> Times
    ensures { result ≡ spec.times_in plan.now phase tables.now.settings moment }
{
    Times {
        settings: tables.settings(),
        flight: plan.kind,
        phase,
        moment,
    }
}

fn sheet_in(
    alloc: Global,
    plan: &Plan,
    phase: Phase,
    world: World<'_>,
) -> Result<Sheet, OutOfMemory>
    requires { IsPlan plan.now }
    ensures { IfOk result (λ s. s ≡ spec.sheet_of plan.now phase (grounds_of world.entry)) }
{
    let times = times_of(plan, phase, world.tables, world.moment);
    sheet_seen(alloc, &times, world, plan)
}

/// Returns the sheet of a plan in a phase: a line for each rule, leg and place that applies, whether it holds or fails,
/// in the order of findings. The findings of `judge` are exactly the keys of the lines that fail.
///
/// A rule of time has a line on the leg that departs next or is in flight. The other rules have lines on the legs that
/// aren't flown, and some of these only on legs that haven't departed. A plan that fails its tests under the tables has
/// only the lines of the rules of time and that of its fault.
pub fn sheet_of(
    alloc: Global,
    plan: &Plan,
    phase: Phase,
    facts: &Reports,
    deferrals: &Deferrals,
    tables: &Tables,
    moment: Minute,
) -> Result<Sheet, OutOfMemory>
    requires { IsPlan plan.now }
    ensures value { IfOk result (λ s. s ≡ spec.sheet_of plan.now phase
        (grounds_held tables.now facts.now.reports deferrals.now.list moment)) }
    ensures findings { IfOk result (λ s. failing s ≡ findings_of plan.now phase
        (grounds_held tables.now facts.now.reports deferrals.now.list moment)) }
    ensures world { IfOk result (AllByRecursion (IsOfWorld plan.now phase
        (grounds_held tables.now facts.now.reports deferrals.now.list moment))) }
    ensures whole { IfOk result (IsWhole plan.now phase
        (grounds_held tables.now facts.now.reports deferrals.now.list moment)) }
    ensures sorted { IfOk result (λ s. AreInOrder (map key s)) }
    ensures regulation { IfOk result (HoldByRegulation plan.now phase
        (grounds_held tables.now facts.now.reports deferrals.now.list moment)) }
{
    let _ = deferrals.as_slice();
    let world = World {
        facts,
        deferrals,
        tables,
        moment,
    };
    sheet_in(alloc, plan, phase, world)
}
