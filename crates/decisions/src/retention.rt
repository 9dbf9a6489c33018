ghost use Rattle.std.specs.Prelude.{◌≡◌, IfOk};
ghost use Rattle.plan.specs.Texts.{HasMoment};
ghost use Rattle.desk_time.specs.Limits.{IsMoment};
ghost use Rattle.desk_state.specs.Decide as spec;
ghost use Rattle.decisions.specs.Answers.{Answers, Passes};
ghost use Rattle.decisions.specs.Reads.{DecisionAdmitsRead};

use crate::chain::{Stop, refused_if};
use crate::releases::held;
use asks::{Done, Refusal};
use desk_state::{Content, Decision, Effect};
use desk_time::{Minute, three_months};
use plan::Phase;

fn ended_at(phase: Phase) -> Option<Minute>
    ensures { result ≡ spec.ended_at phase }
{
    match phase {
        Phase::Completed { at } | Phase::Cancelled { at } => Some(at),
        Phase::Drafted | Phase::Ready | Phase::Flying { .. } | Phase::Stopped { .. } => None,
    }
}

// Returns the moment at which a release ended. Refuses (18) if it hasn't.
fn ended(phase: Phase) -> Result<Minute, Stop>
    requires { HasMoment phase }
    ensures value { Answers (λ at. at) result (spec.ended phase) }
    ensures moment { IfOk result IsMoment }
{
    match ended_at(phase) {
        None => Err(Stop::Refused(Refusal::WrongPhase { phase })),
        Some(at) => Ok(at),
    }
}

fn kept_until(at: Minute) -> Minute
    requires { IsMoment at }
    ensures { result ≡ spec.kept_until at }
{
    1440 * (three_months(at / 1440) + 1)
}

/// Refuses (22) until this moment has come.
pub(crate) fn too_young(content: &Content, until: Minute) -> Result<(), Stop>
    ensures { Passes result (spec.too_young content.now.state until) }
{
    refused_if(content.moment() < until, Refusal::TooYoung { until })
}

/// Decides the removal of an ended release. Refuses an unknown release (10), one that hasn't ended (18), and one
/// whose retention time hasn't passed (22).
pub(crate) fn purge(content: &Content, id: u64) -> Result<Decision, Stop>
    ensures value { Answers (λ d. d) result (spec.decide_purge content.now.state id) }
    ensures read { IfOk result DecisionAdmitsRead }
{
    let release = held(content, id)?;
    let at = ended(release.phase)?;
    too_young(content, kept_until(at))?;
    Ok(Decision::Do(Done::Release(release.id), Effect::remove(release.id)))
}
