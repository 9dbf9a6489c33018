ghost use Rattle.std.specs.Prelude.{◌≡◌, ◌++◌, IfOk, IfSome, OnOk};
ghost use Rattle.std.specs.Option.{option_copied};
ghost use Rattle.commands.specs.Explained as spec;
ghost use Rattle.desk_state.specs.Decide as tests;
ghost use Rattle.desk_state.specs.Sound.{ReleaseInBounds, RevisionInBounds};
ghost use Rattle.desk_state.specs.State.{release_at};
ghost use Rattle.plan.specs.Check.{IsPlan};
ghost use Rattle.scripts.specs.Below.{grounds_of};
ghost use Rattle.sheet.specs.Sheet as sheets;

use asks::{Refusal, Reply};
use desk_io::{OutOfMemory, Text, push_all};
use desk_json::reply_text;
use plan::{Phase, Plan, Release, Revision};
use scripts::Board;
use sheet::{Sheet, sheet_of};
use sheet_text::{Which, failing_first, heading, moment_line};
use std::alloc::Global;

// Every comparison of the rules for a plan, by what a board holds.
fn lines_on(alloc: Global, board: &Board, plan: &Plan, phase: Phase) -> Result<Sheet, OutOfMemory>
    requires { IsPlan plan.now }
    ensures { IfOk result (λ s. s ≡ sheets.sheet_of plan.now phase (grounds_of board.now.state)) }
{
    sheet_of(
        alloc,
        plan,
        phase,
        board.reports(),
        board.deferrals(),
        board.tables(),
        board.now(),
    )
}

// The same in words, what fails first.
#[tactic(auto, unfolding(crate::specs::Explained::plan_sheet))]
fn plan_sheet(alloc: Global, board: &Board, plan: &Plan, phase: Phase) -> Result<Text, OutOfMemory>
    requires { IsPlan plan.now }
    ensures { IfOk result (λ t. t ≡ spec.plan_sheet board.now.state plan.now phase) }
{
    let lines = lines_on(alloc, board, plan, phase)?;
    failing_first(alloc, lines.as_slice())
}

// The phase after the captain's signature, in which a pending revision is judged.
fn once_signed(phase: Phase) -> Phase
    ensures { result ≡ tests.once_signed phase }
{
    match phase {
        Phase::Drafted | Phase::Ready => Phase::Ready,
        Phase::Stopped { next, since, .. } => Phase::Stopped {
            next,
            since,
            again: true,
        },
        Phase::Flying { .. } | Phase::Completed { .. } | Phase::Cancelled { .. } => phase,
    }
}

/// The moment, and the sheet of a plan that nobody has filed.
#[tactic(auto, unfolding(crate::specs::Explained::check_text))]
pub(crate) fn check_text(alloc: Global, board: &Board, plan: &Plan) -> Result<Text, OutOfMemory>
    requires { IsPlan plan.now }
    ensures { IfOk result (λ t. t ≡ spec.check_text board.now.state plan.now) }
{
    let line = moment_line(alloc, board.now())?;
    let sheet = plan_sheet(alloc, board, plan, once_signed(Phase::Drafted))?;
    let mut out = Vec::new(alloc);
    push_all(&mut out, &[line.bytes(), sheet.bytes()])?;
    Ok(Text::from_vec(out))
}

// Adds the sheet of a revision, below its heading.
#[tactic(auto, unfolding(crate::specs::Explained::revision_sheet))]
fn push_revision(
    alloc: Global,
    out: &mut Vec<u8>,
    board: &Board,
    release: u64,
    which: Which,
    phase: Phase,
    revision: &Revision,
) -> Result<(), OutOfMemory>
    requires { RevisionInBounds revision.now }
    ensures { OnOk result (out.new.items
        ≡ out.old.items ++ spec.revision_sheet board.now.state release which phase revision.now) }
{
    let heading = heading(
        alloc,
        release,
        revision.number,
        which,
        &revision.plan,
        board.now(),
    )?;
    let sheet = plan_sheet(alloc, board, &revision.plan, phase)?;
    push_all(out, &[heading.bytes(), sheet.bytes()])
}

// Adds the sheet of an active revision.
fn push_active(
    alloc: Global,
    out: &mut Vec<u8>,
    board: &Board,
    release: &Release,
) -> Result<(), OutOfMemory>
    requires { IfSome release.now.active RevisionInBounds }
    ensures { OnOk result (out.new.items ≡ out.old.items ++ spec.active_sheet board.now.state release.now.id
        release.now.phase release.now.active) }
{
    match &release.active {
        None => Ok(()),
        Some(revision) => push_revision(
            alloc,
            out,
            board,
            release.id,
            Which::Active,
            release.phase,
            revision,
        ),
    }
}

// Adds the sheet of a pending revision.
fn push_pending(
    alloc: Global,
    out: &mut Vec<u8>,
    board: &Board,
    release: &Release,
) -> Result<(), OutOfMemory>
    requires { IfSome release.now.pending RevisionInBounds }
    ensures { OnOk result (out.new.items ≡ out.old.items ++ spec.pending_sheet board.now.state release.now.id
        release.now.phase release.now.pending) }
{
    match &release.pending {
        None => Ok(()),
        Some(revision) => push_revision(
            alloc,
            out,
            board,
            release.id,
            Which::Pending,
            once_signed(release.phase),
            revision,
        ),
    }
}

// The sheets of the revisions of a release.
#[tactic(auto, unfolding(crate::specs::Explained::release_sheets))]
fn release_sheets(alloc: Global, board: &Board, release: &Release) -> Result<Text, OutOfMemory>
    requires { ReleaseInBounds release.now }
    ensures { IfOk result (λ t. t ≡ spec.release_sheets board.now.state release.now) }
{
    let mut out = Vec::new(alloc);
    push_active(alloc, &mut out, board, release)?;
    push_pending(alloc, &mut out, board, release)?;
    Ok(Text::from_vec(out))
}

// The line of the refusal that a view gets of a release which isn't held.
fn no_release(alloc: Global) -> Result<Text, OutOfMemory>
    ensures { IfOk result (λ t. t ≡ spec.no_release) }
{
    let reply = reply_text(alloc, &Reply::Refused(Refusal::NoSuchRelease))?;
    let mut line = Vec::new(alloc);
    push_all(&mut line, &[reply.bytes(), b"\n"])?;
    Ok(Text::from_vec(line))
}

// Returns the release with this id.
fn held(board: &Board, id: u64) -> Option<&Release>
    ensures value { option_copied result ≡ release_at id board.now.state.releases }
    ensures bounds { IfSome (option_copied result) ReleaseInBounds }
{
    let _ = board.now();
    board.release(id)
}

/// The sheets of the revisions of a release, or that the board holds no release with this id.
#[tactic(auto, unfolding(crate::specs::Explained::why_text))]
pub(crate) fn why_text(alloc: Global, board: &Board, id: u32) -> Result<Text, OutOfMemory>
    ensures { IfOk result (λ t. t ≡ spec.why_text board.now.state id) }
{
    match held(board, u64::from(id)) {
        None => no_release(alloc),
        Some(release) => release_sheets(alloc, board, release),
    }
}
