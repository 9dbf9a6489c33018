ghost use Rattle.std.specs.Prelude.{◌≡◌, ◌≤◌, [], None, Some, false, is_some, IfOk, IfSome, OnErr, OnOk};
ghost use Rattle.asks.specs.Ranges.{ReplyHasMoment};
ghost use Rattle.alerts.specs.Ringing.{AreRung, hung_all};
ghost use Rattle.board.specs.Prepare.{KeepsRows, installed};
ghost use Rattle.desk_io.specs.Health.{HasCause};
ghost use Rattle.desk_io.specs.Planned.{after};
ghost use Rattle.keeper.specs.Account.{AddsCommit, FailedCommit};
ghost use Rattle.keeper.specs.Kept.{Leads};
ghost use Rattle.keeper.specs.Seen.{KeeperGoesOn, kept_rows};
ghost use Rattle.keeper.specs.declared.keeping.KeepFault.TheVariants.{Failed as KeepFailed};
ghost use Rattle.desk.specs.Keeping.{Asks, asked_if, kept_or, CountedOnce, KeptUnless};
ghost use Rattle.desk_state.specs.Legal.{IsHistory};
ghost use Rattle.desk.specs.Saved.{DoneUnless};
ghost use Rattle.desk.specs.Seen.{desk_seen, StepGoesOn};
ghost use Rattle.desk.specs.Settled.{stepped_by, IsSettled};

use alerts::{Bell, Notices, Ringer};
use asks::{Refusal, Reply};
use board::{Board, Installed, Prepared};
use desk_io::{Change, OutOfMemory};
use keeper::{KeepFault, Keeper};
use std::alloc::Global;

/// A desk: the board, the keeper that stores its rows, and the ringer of its bells.
#[derive(Drop)]
pub struct Desk<K, B> {
    pub board: Board,
    pub keeper: K,
    pub ringer: Ringer<B>,
}

/// The result of a step.
#[derive(Drop)]
pub struct Settled {
    /// The reply. A tick that was made has none.
    pub reply: Option<Reply>,
    /// The notices about alerts that the step caused.
    pub notices: Notices,
    /// The keeper's count of faults, if it failed to store the step.
    pub fault: Option<u64>,
}

// A fault is reported by the keeper's new count. If the count couldn't rise, since it is saturated, the fault is
// reported as out of memory.
fn told(before: u64, faults: u64) -> Result<Option<u64>, OutOfMemory>
    requires { before ≤ faults }
    ensures told { IfOk result (λ fault. fault ≡ Some faults) }
    ensures count { IfOk result (λ fault. CountedOnce before fault faults) }
{
    if before < faults {
        Ok(Some(faults))
    } else {
        Err(OutOfMemory)
    }
}

/// Asks the keeper to make all changes, or none of them.
pub(crate) fn commit<K: Keeper>(
    alloc: Global,
    keeper: &mut K,
    changes: &[Change],
) -> Result<(), KeepFault>
    ensures ok { OnOk result (Leads (kept_rows (K.seen keeper.old)) changes.now (kept_rows (K.seen keeper.new))) }
    ensures err { OnErr result (kept_rows (K.seen keeper.new) ≡ kept_rows (K.seen keeper.old)) }
    ensures same { OnErr result ((K.seen keeper.new).rows ≡ (K.seen keeper.old).rows) }
    ensures one { (K.seen keeper.new).commits ≡ after (K.seen keeper.old).commits }
    ensures account { AddsCommit (K.seen keeper.old).account (K.seen keeper.new).account changes.now result }
    ensures on { KeeperGoesOn (K.seen keeper.old) (K.seen keeper.new) }
    ensures cause { HasCause KeepFailed (K.seen keeper.old).health (K.seen keeper.new).health result }
{
    keeper.commit(alloc, changes)
}

// Stores all changes, or none of them. Returns the keeper's count of faults if it failed, otherwise none.
fn keep<K: Keeper>(
    alloc: Global,
    keeper: &mut K,
    changes: &[Change],
) -> Result<Option<u64>, OutOfMemory>
    ensures rows { IfOk result (λ fault. KeptUnless fault (kept_rows (K.seen keeper.old)) changes.now
        (kept_rows (K.seen keeper.new))) }
    ensures same { OnErr result (kept_rows (K.seen keeper.new) ≡ kept_rows (K.seen keeper.old)) }
    ensures count { IfOk result (λ fault. CountedOnce (K.seen keeper.old).health.faults fault
        (K.seen keeper.new).health.faults) }
    ensures asked { (K.seen keeper.new).commits ≡ after (K.seen keeper.old).commits }
    ensures done { IfOk result (λ fault. DoneUnless fault (K.seen keeper.old).account changes.now
        (K.seen keeper.new).account) }
    ensures failed { OnErr result (FailedCommit (K.seen keeper.old).account (K.seen keeper.new).account
        changes.now KeepFailed) }
    ensures on { KeeperGoesOn (K.seen keeper.old) (K.seen keeper.new) }
{
    let before = keeper.faults();
    match commit(alloc, keeper, changes) {
        Ok(()) => Ok(None),
        Err(KeepFault::Failed) => told(before, keeper.faults()),
        Err(KeepFault::OutOfMemory) => Err(OutOfMemory),
    }
}

fn unkept(alloc: Global, faults: u64) -> Settled
    ensures reply { result.reply ≡ Some (Reply.Refused (Refusal.Unkept faults)) }
    ensures notices { result.notices ≡ [] }
    ensures fault { result.fault ≡ Some faults }
{
    Settled {
        reply: Some(Reply::Refused(Refusal::Unkept { faults })),
        notices: Notices::new(alloc),
        fault: Some(faults),
    }
}

/// The result of a call whose tick was refused: the tick's reply.
pub(crate) fn stayed(alloc: Global, reply: Reply) -> Settled
    ensures reply { result.reply ≡ Some reply }
    ensures notices { result.notices ≡ [] }
    ensures fault { result.fault ≡ None }
{
    Settled {
        reply: Some(reply),
        notices: Notices::new(alloc),
        fault: None,
    }
}

// Installs a prepared step, and rings the bells for its notices.
fn install<B: Bell>(board: &mut Board, ringer: &mut Ringer<B>, prepared: Prepared) -> Settled
    requires { board.old.room ≡ Some prepared }
    ensures settled { IsSettled result board.new.state (stepped_by board.old.state prepared) }
    ensures fault { result.fault ≡ None }
    ensures opening { board.new.opening ≡ board.old.opening }
    ensures listed { board.new.listed ≡ board.old.listed }
    ensures state { board.new.state ≡ installed prepared board.old.state }
    ensures reply { result.reply ≡ prepared.reply }
    ensures rung { AreRung result.notices (hung_all B.seen ringer.old) (hung_all B.seen ringer.new) }
{
    let Installed { reply, notices } = board.install(prepared);
    ringer.ring_all(notices.as_slice());
    Settled {
        reply,
        notices,
        fault: None,
    }
}

// Drops a step that isn't installed, in a function of its own, which keeps the caller's proof small.
fn drop_prepared(_: Prepared) {}

/// Stores the changes of a prepared step, installs the step, and rings the bells for its notices. If the keeper
/// fails, the step is refused (26 `Unkept`) and changes nothing. A step without changes needs no commit.
#[tactic(auto, using(crate::proofs::HeardLaws::nothing_rung))]
pub(crate) fn settle<K: Keeper, B: Bell>(
    alloc: Global,
    desk: &mut Desk<K, B>,
    prepared: Prepared,
) -> Result<Settled, OutOfMemory>
    requires room { desk.old.board.room ≡ Some prepared }
    requires keeps { KeepsRows desk.old.board.state prepared }
    requires shown { IfSome prepared.reply ReplyHasMoment }
    requires history { IsHistory desk.old.board.opening desk.old.board.state }
    requires next { IsHistory desk.old.board.opening (installed prepared desk.old.board.state) }
    ensures settled { IfOk result (λ r. IsSettled r desk.new.board.state
        (kept_or r.fault desk.old.board.state (stepped_by desk.old.board.state prepared))) }
    ensures shown { IfOk result (λ r. IfSome r.reply ReplyHasMoment) }
    ensures err { OnErr result (desk.new.board.state ≡ desk.old.board.state) }
    ensures on { StepGoesOn (desk_seen K.seen B.seen desk.old) (desk_seen K.seen B.seen desk.new) }
    ensures rung { IfOk result (λ r. AreRung r.notices (hung_all B.seen desk.old.ringer)
        (hung_all B.seen desk.new.ringer)) }
    ensures unrung { OnErr result (hung_all B.seen desk.new.ringer ≡ hung_all B.seen desk.old.ringer) }
    ensures count { IfOk result (λ r. CountedOnce (K.seen desk.old.keeper).health.faults r.fault
        (K.seen desk.new.keeper).health.faults) }
    ensures told { IfOk result (λ r. IfSome r.fault (λ n. r.reply ≡ Some (Reply.Refused (Refusal.Unkept n)))) }
    ensures asks { IfOk result (λ r. Asks (K.seen desk.old.keeper) (K.seen desk.new.keeper)
        (asked_if (is_some prepared.event) r.fault)) }
    // A step without changes leaves the keeper untouched.
    ensures still { is_some prepared.event ≡ false → desk.new.keeper ≡ desk.old.keeper }
{
    if !prepared.changed() {
        return Ok(install(&mut desk.board, &mut desk.ringer, prepared));
    }
    match keep(alloc, &mut desk.keeper, prepared.changes()) {
        Ok(None) => Ok(install(&mut desk.board, &mut desk.ringer, prepared)),
        Ok(Some(faults)) => {
            drop_prepared(prepared);
            Ok(unkept(alloc, faults))
        }
        Err(OutOfMemory) => {
            drop_prepared(prepared);
            Err(OutOfMemory)
        }
    }
}
