ghost use Rattle.std.specs.Prelude.{◌≡◌, ◌≤◌, ℕ, None, Some, Ok, Err, IfOk, MatchResult};
ghost use Rattle.std.specs.List.{AllByRecursion};
ghost use Rattle.advise.specs.Candidates.{AreCandidates};
ghost use Rattle.advise.specs.Text.{IsAdviceText};
ghost use Rattle.commands.specs.Explained as explained;
ghost use Rattle.commands.specs.Faults.{Gives};
ghost use Rattle.commands.specs.Sources.{first_of};
ghost use Rattle.commands.specs.Working as spec;
ghost use Rattle.commands.specs.Working.{Advises, Checks, Explains, Imports, Makes, Runs, RunsPlanned, SaysLines, since};
ghost use Rattle.scripts.specs.Below.{desk_at, desk_seen, DeskGoesOn, grounds_of};
ghost use Rattle.desk_io.specs.Over.{over};
ghost use Rattle.imports.specs.Records.{HasForms};
ghost use Rattle.plan.specs.Check.{IsPlan, plan_fault};

use crate::explained::{check_text, why_text};
use crate::fault::Fault;
use crate::sources::first_of;
use crate::working::Work;
use advise::{Candidate, advice_text};
use alerts::Bell;
use desk_io::{Listed, OutOfMemory, Text};
use imports::{Line, read_import};
use keeper::Keeper;
use plan::Plan;
use scripts::{Board, Desk, Gate, Steps, make_from, planned_text, text_from, text_of_import};
use std::alloc::Global;
use std::sync::ledger::Ledger;
use table_files::{BadTable, TableWhy};

/// Runs a script.
#[derive(Drop)]
pub(crate) struct Running {
    pub texts: Listed<Text>,
}

fn run<K: Keeper, B: Bell, G: Gate, L: Ledger>(
    alloc: Global,
    desk: &mut Desk<K, B>,
    script: &[u8],
    gate: &G,
    steps: &mut Steps<L>,
) -> Result<Text, Fault>
    ensures run { Runs script.now (over (desk_at K.seen) desk.old desk.new) result }
    ensures desk { DeskGoesOn (desk_seen K.seen B.seen desk.old) (desk_seen K.seen B.seen desk.new) }
{
    Ok(Text::from_vec(text_from(alloc, desk, script, gate, steps)?))
}

impl<K: Keeper, B: Bell, G: Gate, L: Ledger> Work<K, B, G, Steps<L>> for Running {
    ghost use Rattle.commands.specs.Sources.{first_of};
    ghost use Rattle.commands.specs.Working.{Runs};

    ghost seen = { K.seen };

    ghost heard = { B.seen };

    ghost ready = { λ tables work. Unit {0} };

    ghost does = { λ work. Runs (first_of work.texts) };

    ghost asks = { λ work before after. Unit {0} };

    fn work(
        self,
        alloc: Global,
        desk: &mut Desk<K, B>,
        gate: &G,
        steps: &mut Steps<L>,
    ) -> Result<Text, Fault>
        requires { Unit {0} }
        ensures does { (less : ℕ) → less ≤ (K.seen desk.old.keeper).health.faults
            → Runs (first_of self.texts) (since less (over (desk_at K.seen) desk.old desk.new)) result }
        ensures asks { Unit {0} }
        ensures on { DeskGoesOn (desk_seen K.seen B.seen desk.old) (desk_seen K.seen B.seen desk.new) }
    {
        run(alloc, desk, first_of(self.texts.as_slice()), gate, steps)
    }
}

// The bad record of a file whose first record isn't the header of an import.
fn headerless(alloc: Global, name: &str) -> Result<BadTable, OutOfMemory>
    ensures { IfOk result (λ bad. bad ≡ spec.headerless name.now) }
{
    Ok(BadTable {
        name: Text::of(alloc, name.as_bytes())?,
        line: 1,
        why: TableWhy::BadField,
    })
}

/// The lines of an import file that was read.
pub(crate) fn lines_in(alloc: Global, name: &str, file: &[u8]) -> Result<Vec<Line>, Fault>
    ensures lines { MatchResult result (λ v. SaysLines name.now file.now (Ok v.items))
        (λ fault. SaysLines name.now file.now (Err fault)) }
    ensures forms { IfOk result (λ v. AllByRecursion HasForms v.items) }
{
    match read_import(alloc, file) {
        Ok(Some(lines)) => Ok(lines),
        Ok(None) => Err(Fault::BadTable(headerless(alloc, name)?)),
        Err(OutOfMemory) => Err(Fault::OutOfMemory),
    }
}

/// Answers the lines of an import.
#[derive(Drop)]
pub(crate) struct Importing {
    pub lines: Vec<Line>,
}

fn import_lines<K: Keeper, B: Bell, G: Gate, L: Ledger>(
    alloc: Global,
    desk: &mut Desk<K, B>,
    lines: Vec<Line>,
    gate: &G,
    steps: &mut Steps<L>,
) -> Result<Text, Fault>
    requires { AllByRecursion HasForms lines.items }
    ensures imports { Imports lines.items (over (desk_at K.seen) desk.old desk.new) result }
    ensures desk { DeskGoesOn (desk_seen K.seen B.seen desk.old) (desk_seen K.seen B.seen desk.new) }
{
    Ok(Text::from_vec(text_of_import(alloc, desk, lines, gate, steps)?))
}

impl<K: Keeper, B: Bell, G: Gate, L: Ledger> Work<K, B, G, Steps<L>> for Importing {
    ghost use Rattle.std.specs.List.{AllByRecursion};
    ghost use Rattle.commands.specs.Working.{Imports};
    ghost use Rattle.imports.specs.Records.{HasForms};

    ghost seen = { K.seen };

    ghost heard = { B.seen };

    ghost ready = { λ tables work. AllByRecursion HasForms work.lines.items };

    ghost does = { λ work. Imports work.lines.items };

    ghost asks = { λ work before after. Unit {0} };

    fn work(
        self,
        alloc: Global,
        desk: &mut Desk<K, B>,
        gate: &G,
        steps: &mut Steps<L>,
    ) -> Result<Text, Fault>
        requires { AllByRecursion HasForms self.lines.items }
        ensures does { (less : ℕ) → less ≤ (K.seen desk.old.keeper).health.faults
            → Imports self.lines.items (since less (over (desk_at K.seen) desk.old desk.new)) result }
        ensures asks { Unit {0} }
        ensures on { DeskGoesOn (desk_seen K.seen B.seen desk.old) (desk_seen K.seen B.seen desk.new) }
    {
        import_lines(alloc, desk, self.lines, gate, steps)
    }
}

/// Answers calls made from the seed `number` for `count` flights.
#[derive(Drop)]
pub(crate) struct Making {
    pub number: u32,
    pub count: u32,
}

fn make<K: Keeper, B: Bell, G: Gate, L: Ledger>(
    alloc: Global,
    desk: &mut Desk<K, B>,
    number: u32,
    count: u32,
    gate: &G,
    steps: &mut Steps<L>,
) -> Result<Text, Fault>
    requires { count ≤ 20_000 }
    ensures makes { Makes number count (over (desk_at K.seen) desk.old desk.new) result }
    ensures desk { DeskGoesOn (desk_seen K.seen B.seen desk.old) (desk_seen K.seen B.seen desk.new) }
{
    Ok(Text::from_vec(make_from(alloc, desk, number, count, gate, steps)?))
}

impl<K: Keeper, B: Bell, G: Gate, L: Ledger> Work<K, B, G, Steps<L>> for Making {
    ghost use Rattle.std.specs.Prelude.{◌≤◌};
    ghost use Rattle.commands.specs.Working.{Makes};

    ghost seen = { K.seen };

    ghost heard = { B.seen };

    ghost ready = { λ tables work. work.count ≤ 20_000 };

    ghost does = { λ work. Makes work.number work.count };

    ghost asks = { λ work before after. Unit {0} };

    fn work(
        self,
        alloc: Global,
        desk: &mut Desk<K, B>,
        gate: &G,
        steps: &mut Steps<L>,
    ) -> Result<Text, Fault>
        requires { self.count ≤ 20_000 }
        ensures does { (less : ℕ) → less ≤ (K.seen desk.old.keeper).health.faults
            → Makes self.number self.count (since less (over (desk_at K.seen) desk.old desk.new)) result }
        ensures asks { Unit {0} }
        ensures on { DeskGoesOn (desk_seen K.seen B.seen desk.old) (desk_seen K.seen B.seen desk.new) }
    {
        make(alloc, desk, self.number, self.count, gate, steps)
    }
}

/// Advises alternates for each leg of a plan.
#[derive(Drop)]
pub(crate) struct Advising {
    pub plan: Plan,
    pub candidates: Listed<Candidate>,
}

// The advice by what a board holds.
fn advice_on<L: Ledger>(
    alloc: Global,
    board: &Board,
    plan: &Plan,
    candidates: &[Candidate],
    steps: &mut Steps<L>,
) -> Result<Text, OutOfMemory>
    requires plan { IsPlan plan.now }
    requires valid { plan_fault board.now.state.tables plan.now ≡ None }
    requires candidates { AreCandidates board.now.state.tables plan.now candidates.now }
    ensures { IfOk result (IsAdviceText plan.now candidates.now (grounds_of board.now.state)) }
{
    advice_text(
        alloc,
        plan,
        candidates,
        board.reports(),
        board.deferrals(),
        board.tables(),
        board.now(),
        steps,
    )
}

fn advise<L: Ledger>(
    alloc: Global,
    board: &Board,
    work: &Advising,
    steps: &mut Steps<L>,
) -> Result<Text, Fault>
    requires plan { IsPlan work.now.plan }
    requires valid { plan_fault board.now.state.tables work.now.plan ≡ None }
    requires candidates { AreCandidates board.now.state.tables work.now.plan work.now.candidates }
    ensures { Gives (IsAdviceText work.now.plan work.now.candidates (grounds_of board.now.state)) result }
{
    Ok(advice_on(alloc, board, &work.plan, work.candidates.as_slice(), steps)?)
}

impl<K: Keeper, B: Bell, G: Gate, L: Ledger> Work<K, B, G, Steps<L>> for Advising {
    ghost use Rattle.std.specs.Prelude.{◌≡◌, None};
    ghost use Rattle.plan.specs.Check.{IsPlan, plan_fault};
    ghost use Rattle.advise.specs.Candidates.{AreCandidates};
    ghost use Rattle.commands.specs.Working.{Advises};

    ghost seen = { K.seen };

    ghost heard = { B.seen };

    ghost ready = { λ tables work. IsPlan work.plan × (plan_fault tables work.plan ≡ None)
        × AreCandidates tables work.plan work.candidates };

    ghost does = { λ work. Advises work.plan work.candidates };

    ghost asks = { λ work before after. after.commits ≡ before.commits };

    fn work(
        self,
        alloc: Global,
        desk: &mut Desk<K, B>,
        gate: &G,
        steps: &mut Steps<L>,
    ) -> Result<Text, Fault>
        requires { IsPlan self.plan × (plan_fault desk.old.board.state.tables self.plan ≡ None)
            × AreCandidates desk.old.board.state.tables self.plan self.candidates }
        ensures does { (less : ℕ) → less ≤ (K.seen desk.old.keeper).health.faults
            → Advises self.plan self.candidates (since less (over (desk_at K.seen) desk.old desk.new)) result }
        ensures asks { (K.seen desk.new.keeper).commits ≡ (K.seen desk.old.keeper).commits }
        ensures on { DeskGoesOn (desk_seen K.seen B.seen desk.old) (desk_seen K.seen B.seen desk.new) }
    {
        advise(alloc, &desk.board, &self, steps)
    }
}

/// Runs a script of planned redispatches.
#[derive(Drop)]
pub(crate) struct Planning {
    pub texts: Listed<Text>,
}

fn plan<K: Keeper, B: Bell, G: Gate, L: Ledger>(
    alloc: Global,
    desk: &mut Desk<K, B>,
    script: &[u8],
    gate: &G,
    steps: &mut Steps<L>,
) -> Result<Text, Fault>
    ensures run { RunsPlanned script.now (over (desk_at K.seen) desk.old desk.new) result }
    ensures desk { DeskGoesOn (desk_seen K.seen B.seen desk.old) (desk_seen K.seen B.seen desk.new) }
{
    Ok(Text::from_vec(planned_text(alloc, desk, script, gate, steps)?))
}

impl<K: Keeper, B: Bell, G: Gate, L: Ledger> Work<K, B, G, Steps<L>> for Planning {
    ghost use Rattle.commands.specs.Sources.{first_of};
    ghost use Rattle.commands.specs.Working.{RunsPlanned};

    ghost seen = { K.seen };

    ghost heard = { B.seen };

    ghost ready = { λ tables work. Unit {0} };

    ghost does = { λ work. RunsPlanned (first_of work.texts) };

    ghost asks = { λ work before after. Unit {0} };

    fn work(
        self,
        alloc: Global,
        desk: &mut Desk<K, B>,
        gate: &G,
        steps: &mut Steps<L>,
    ) -> Result<Text, Fault>
        requires { Unit {0} }
        ensures does { (less : ℕ) → less ≤ (K.seen desk.old.keeper).health.faults
            → RunsPlanned (first_of self.texts) (since less (over (desk_at K.seen) desk.old desk.new)) result }
        ensures asks { Unit {0} }
        ensures on { DeskGoesOn (desk_seen K.seen B.seen desk.old) (desk_seen K.seen B.seen desk.new) }
    {
        plan(alloc, desk, first_of(self.texts.as_slice()), gate, steps)
    }
}

/// Explains the revisions of a release.
#[derive(Drop)]
pub(crate) struct Explaining {
    pub release: u32,
}

fn explain(alloc: Global, board: &Board, release: u32) -> Result<Text, Fault>
    ensures { Gives (λ text. text ≡ explained.why_text board.now.state release) result }
{
    Ok(why_text(alloc, board, release)?)
}

impl<K: Keeper, B: Bell, G: Gate, L: Ledger> Work<K, B, G, Steps<L>> for Explaining {
    ghost use Rattle.std.specs.Prelude.{◌≡◌};
    ghost use Rattle.commands.specs.Working.{Explains};

    ghost seen = { K.seen };

    ghost heard = { B.seen };

    ghost ready = { λ tables work. Unit {0} };

    ghost does = { λ work. Explains work.release };

    ghost asks = { λ work before after. after.commits ≡ before.commits };

    fn work(
        self,
        alloc: Global,
        desk: &mut Desk<K, B>,
        gate: &G,
        steps: &mut Steps<L>,
    ) -> Result<Text, Fault>
        requires { Unit {0} }
        ensures does { (less : ℕ) → less ≤ (K.seen desk.old.keeper).health.faults
            → Explains self.release (since less (over (desk_at K.seen) desk.old desk.new)) result }
        ensures asks { (K.seen desk.new.keeper).commits ≡ (K.seen desk.old.keeper).commits }
        ensures on { DeskGoesOn (desk_seen K.seen B.seen desk.old) (desk_seen K.seen B.seen desk.new) }
    {
        explain(alloc, &desk.board, self.release)
    }
}

/// Checks a plan that isn't filed.
#[derive(Drop)]
pub(crate) struct Checking {
    pub plan: Plan,
}

fn check(alloc: Global, board: &Board, plan: &Plan) -> Result<Text, Fault>
    requires { IsPlan plan.now }
    ensures { Gives (λ text. text ≡ explained.check_text board.now.state plan.now) result }
{
    Ok(check_text(alloc, board, plan)?)
}

impl<K: Keeper, B: Bell, G: Gate, L: Ledger> Work<K, B, G, Steps<L>> for Checking {
    ghost use Rattle.std.specs.Prelude.{◌≡◌};
    ghost use Rattle.plan.specs.Check.{IsPlan};
    ghost use Rattle.commands.specs.Working.{Checks};

    ghost seen = { K.seen };

    ghost heard = { B.seen };

    ghost ready = { λ tables work. IsPlan work.plan };

    ghost does = { λ work. Checks work.plan };

    ghost asks = { λ work before after. after.commits ≡ before.commits };

    fn work(
        self,
        alloc: Global,
        desk: &mut Desk<K, B>,
        gate: &G,
        steps: &mut Steps<L>,
    ) -> Result<Text, Fault>
        requires { IsPlan self.plan }
        ensures does { (less : ℕ) → less ≤ (K.seen desk.old.keeper).health.faults
            → Checks self.plan (since less (over (desk_at K.seen) desk.old desk.new)) result }
        ensures asks { (K.seen desk.new.keeper).commits ≡ (K.seen desk.old.keeper).commits }
        ensures on { DeskGoesOn (desk_seen K.seen B.seen desk.old) (desk_seen K.seen B.seen desk.new) }
    {
        check(alloc, &desk.board, &self.plan)
    }
}
