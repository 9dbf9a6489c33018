ghost use Rattle.std.specs.Prelude.{◌≡◌, ◌≤◌, ◌+◌, false, IfOk};
ghost use Rattle.asks.specs.Ranges.{IsCall};
ghost use Rattle.desk_state.specs.Counting.{to_decide};
ghost use Rattle.desk_state.specs.Decide as spec;
ghost use Rattle.desk_state.specs.Decide.{decide};
ghost use Rattle.decisions.specs.Answers.{Answers};
ghost use Rattle.decisions.specs.Reads.{DecisionAdmitsRead};

use crate::acknowledgement::acknowledge;
use crate::chain::Stop;
use crate::drafts::{amend, cancel, draft, prepare};
use crate::equipment::{clear, defer, view_deferred};
use crate::flights::{arrive, depart};
use crate::people::not_his_role;
use crate::repeats::{above_floor, repeated};
use crate::reports::{admit, view_weather};
use crate::retention::purge;
use crate::shown::{view_alerts, view_board, view_release};
use crate::signatures::{concur, sign};
use crate::sweeps::sweep;
use asks::{Ask, Call, ask_digest};
use desk_state::{Content, Decision};
use rules::Steps;
use std::alloc::Global;
use std::sync::ledger::Ledger;

fn decide_ask<L: Ledger>(
    alloc: Global,
    content: &Content,
    call: &Call,
    steps: &mut Steps<L>,
) -> Result<Decision, Stop>
    requires call { IsCall call.now.ask }
    ensures value { Answers (λ d. d) result (spec.decide_ask content.now.state call.now.actor call.now.ask) }
    ensures read { IfOk result DecisionAdmitsRead }
    ensures steps { steps.new ≤ steps.old + to_decide call.now.ask }
{
    let actor = &call.actor;
    match &call.ask {
        Ask::Admit { text } => admit(alloc, content, text),
        Ask::Defer { tail, item, found } => defer(alloc, content, tail, item, *found),
        Ask::Clear { deferral } => clear(content, *deferral),
        Ask::Draft { plan } => draft(alloc, content, actor, plan),
        Ask::Prepare { release } => prepare(alloc, content, actor, *release),
        Ask::Sign {
            release,
            revision,
            digest,
        } => sign(alloc, content, actor, *release, *revision, digest, steps),
        Ask::Concur {
            release,
            revision,
            digest,
        } => concur(alloc, content, actor, *release, *revision, digest, steps),
        Ask::Amend { release, plan } => amend(alloc, content, actor, *release, plan),
        Ask::Cancel { release } => cancel(alloc, content, actor, *release),
        Ask::Depart { release, leg } => depart(alloc, content, actor, *release, *leg, steps),
        Ask::Arrive { release, leg } => arrive(alloc, content, actor, *release, *leg),
        Ask::Acknowledge { release, version } => {
            acknowledge(alloc, content, actor, *release, *version)
        }
        Ask::Purge { release } => purge(content, *release),
        Ask::Sweep { before } => sweep(alloc, content, *before),
        Ask::ViewBoard => view_board(alloc, content),
        Ask::ViewAlerts => view_alerts(alloc, content),
        Ask::ViewRelease { release } => view_release(alloc, content, *release),
        Ask::ViewWeather { station } => view_weather(alloc, content, *station),
        Ask::ViewDeferred { tail } => view_deferred(alloc, content, tail),
    }
}

fn is_view(ask: &Ask) -> bool
    ensures { result ≡ spec.is_view ask.now }
{
    match ask {
        Ask::ViewBoard
        | Ask::ViewAlerts
        | Ask::ViewRelease { .. }
        | Ask::ViewWeather { .. }
        | Ask::ViewDeferred { .. } => true,
        _ => false,
    }
}

// Decides a command. If a reply is kept under its number, the same ask gets that reply, and another one is refused.
fn decide_command<L: Ledger>(
    alloc: Global,
    content: &Content,
    call: &Call,
    steps: &mut Steps<L>,
) -> Result<Decision, Stop>
    requires call { IsCall call.now.ask }
    ensures value { Answers (λ d. d) result (spec.decide_numbered false content.now.state call.now) }
    ensures read { IfOk result DecisionAdmitsRead }
    ensures steps { steps.new ≤ steps.old + to_decide call.now.ask }
{
    let actor = call.actor.bytes();
    match content.replies().kept_at(actor, call.number) {
        Some(reply) => repeated(reply, &ask_digest(alloc, &call.ask)?),
        None => {
            above_floor(content.replies().floor_at(actor), call.number)?;
            decide_ask(alloc, content, call, steps)
        }
    }
}

/// Decides a call whose name and key are right. First the person's role must permit the ask. Then a command's number
/// is looked up; the number of a view is ignored. Then come the tests of the ask in order, and the first one that
/// fails gives the refusal. `steps` counts the plans that are judged.
#[tactic(auto, unfolding(desk_state::specs::Decide::decide))]
pub fn decide<L: Ledger>(
    alloc: Global,
    content: &Content,
    call: &Call,
    steps: &mut Steps<L>,
) -> Result<Decision, Stop>
    requires call { IsCall call.now.ask }
    ensures value { Answers (λ d. d) result (decide content.now.state call.now) }
    ensures read { IfOk result DecisionAdmitsRead }
    ensures steps { steps.new ≤ steps.old + to_decide call.now.ask }
{
    not_his_role(content.tables().actor(call.actor.bytes()), &call.ask)?;
    if is_view(&call.ask) {
        decide_ask(alloc, content, call, steps)
    } else {
        decide_command(alloc, content, call, steps)
    }
}
