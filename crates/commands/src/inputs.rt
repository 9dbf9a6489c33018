ghost use Rattle.std.specs.Prelude.{◌≡◌, ◌≢◌, None, Some, Ok, IfOk, IfErr, MatchResult, map, string_bytes};
ghost use Rattle.advise.specs.Candidates.{AreCandidates};
ghost use Rattle.candidate_files.specs.Candidates.{AreCandidatesIn};
ghost use Rattle.commands.specs.Faults.{OnInput};
ghost use Rattle.commands.specs.Inputs.{AreStated, IsBadPlan, IsBadRecord, IsBadCandidate, IsFirstBad, IsNoPlan, StatesPlan};
ghost use Rattle.commands.specs.Sources as spec;
ghost use Rattle.desk_json.specs.Plans.{plan_in};
ghost use Rattle.plan.specs.Check.{IsPlan, plan_fault};

use crate::fault::{BadInput, Fault, InputWhy};
use crate::sources::{first_name, first_of, second_name, second_of};
use crate::works::{Advising, Checking};
use advise::Candidate;
use candidate_files::{BadCandidate, read_candidates};
use desk_io::{Listed, OutOfMemory, Text};
use desk_json::{PlanText, read_plan};
use ops_tables::Tables;
use plan::{Plan, check_plan};
use std::alloc::Global;

// The fault that a record of a file is bad.
fn bad_input(alloc: Global, name: &str, line: u32, why: InputWhy) -> Fault
    ensures { OnInput (λ bad. bad ≡ record { name = name.now; line = line; why = why }) result }
{
    match Text::of(alloc, name.as_bytes()) {
        Ok(name) => Fault::BadInput(BadInput { name, line, why }),
        Err(OutOfMemory) => Fault::OutOfMemory,
    }
}

// Tests a plan as a draft is tested.
fn tested(alloc: Global, name: &str, plan: Plan, tables: &Tables) -> Result<Plan, Fault>
    requires { IsPlan plan }
    ensures form { IfOk result IsPlan }
    ensures same { IfOk result (λ p. p ≡ plan) }
    ensures valid { IfOk result (λ p. plan_fault tables.now plan ≡ None) }
    ensures fails { IfErr result (λ fault. plan_fault tables.now plan ≢ None) }
    ensures bad { IfErr result (OnInput (λ bad. bad ≡ record { name = name.now; line = 1; why = InputWhy.BadPlan })) }
{
    match check_plan(&plan, tables) {
        Ok(()) => Ok(plan),
        Err(_) => Err(bad_input(alloc, name, 1, InputWhy::BadPlan)),
    }
}

// Reads a plan.
fn plan_read(alloc: Global, name: &str, text: &[u8]) -> Result<Plan, Fault>
    ensures reads { MatchResult result (λ plan. plan_in text.now ≡ Some plan) (OnInput (IsNoPlan name.now text.now)) }
    ensures form { IfOk result IsPlan }
{
    match read_plan(alloc, text) {
        Ok(plan) => Ok(plan),
        Err(PlanText::NotPlan) => Err(bad_input(alloc, name, 1, InputWhy::NotPlan)),
        Err(PlanText::OutOfMemory) => Err(Fault::OutOfMemory),
    }
}

// Reads a plan, and tests it as a draft is tested.
fn plan_in(alloc: Global, name: &str, text: &[u8], tables: &Tables) -> Result<Plan, Fault>
    ensures states { MatchResult result (StatesPlan tables.now text.now)
        (OnInput (IsBadPlan tables.now name.now text.now)) }
    ensures form { IfOk result IsPlan }
{
    match plan_read(alloc, name, text) {
        Ok(plan) => tested(alloc, name, plan, tables),
        Err(fault) => Err(fault),
    }
}

// Reads the candidates for a plan.
fn candidates_in(
    alloc: Global,
    name: &str,
    text: &[u8],
    plan: &Plan,
    tables: &Tables,
) -> Result<Listed<Candidate>, Fault>
    requires { IsPlan plan.now }
    ensures state { MatchResult result (λ read. AreCandidatesIn tables.now plan.now text.now (Ok read))
        (OnInput (IsBadRecord tables.now plan.now name.now text.now)) }
    ensures are { IfOk result (AreCandidates tables.now plan.now) }
{
    match read_candidates(alloc, text, plan, tables)? {
        Ok(candidates) => Ok(candidates),
        Err(BadCandidate { line, why }) => Err(bad_input(
            alloc,
            name,
            line,
            InputWhy::Candidate(why),
        )),
    }
}

// Reads the candidates for a plan that was read.
fn inquiry_on(
    alloc: Global,
    names: &[String],
    texts: &[Text],
    plan: Plan,
    tables: &Tables,
) -> Result<Advising, Fault>
    requires plan { IsPlan plan }
    requires states { StatesPlan tables.now (spec.first_of texts.now) plan }
    ensures states { MatchResult result (λ work. AreStated tables.now texts.now work.plan work.candidates)
        (OnInput (IsBadCandidate tables.now (map string_bytes names.now) texts.now)) }
    ensures plan { IfOk result (λ work. IsPlan work.plan) }
    ensures are { IfOk result (λ work. AreCandidates tables.now work.plan work.candidates) }
{
    match candidates_in(alloc, second_name(names), second_of(texts), &plan, tables) {
        Ok(candidates) => Ok(Advising { plan, candidates }),
        Err(fault) => Err(fault),
    }
}

/// The plan and the candidates in two files, or the first bad record of them.
pub(crate) fn inquiry_in(
    alloc: Global,
    names: &[String],
    texts: &[Text],
    tables: &Tables,
) -> Result<Advising, Fault>
    ensures states { MatchResult result (λ work. AreStated tables.now texts.now work.plan work.candidates)
        (OnInput (IsFirstBad tables.now (map string_bytes names.now) texts.now)) }
    ensures plan { IfOk result (λ work. IsPlan work.plan) }
    ensures are { IfOk result (λ work. AreCandidates tables.now work.plan work.candidates) }
{
    match plan_in(alloc, first_name(names), first_of(texts), tables) {
        Ok(plan) => inquiry_on(alloc, names, texts, plan, tables),
        Err(fault) => Err(fault),
    }
}

/// The plan in a file, which may fail the tests of a draft, or the fault that the file isn't a plan.
pub(crate) fn plan_to_check(alloc: Global, name: &str, text: &[u8]) -> Result<Checking, Fault>
    ensures reads { MatchResult result (λ work. plan_in text.now ≡ Some work.plan)
        (OnInput (IsNoPlan name.now text.now)) }
    ensures plan { IfOk result (λ work. IsPlan work.plan) }
{
    match plan_read(alloc, name, text) {
        Ok(plan) => Ok(Checking { plan }),
        Err(fault) => Err(fault),
    }
}
