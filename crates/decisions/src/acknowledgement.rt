ghost use Rattle.std.specs.Prelude.{IfOk};
ghost use Rattle.desk_state.specs.Decide as spec;
ghost use Rattle.decisions.specs.Answers.{Answers, Passes};
ghost use Rattle.decisions.specs.Reads.{DecisionAdmitsRead};

use crate::chain::{Stop, refused_if};
use crate::releases::{held, not_yours};
use alerts::Alert;
use asks::{Done, Refusal};
use desk_io::Text;
use desk_state::{Content, Decision, Effect};
use std::alloc::Global;

fn alert_of(content: &Content, release: u64) -> Result<&Alert, Stop>
    ensures { Answers (λ a. a.now) result (spec.alert_of content.now.state release) }
{
    match content.alert(release) {
        None => Err(Stop::Refused(Refusal::NoSuchAlert)),
        Some(alert) => Ok(alert),
    }
}

fn moved(alert: &Alert, version: u64) -> Result<(), Stop>
    ensures { Passes result (spec.moved alert.now version) }
{
    refused_if(
        alert.version != version,
        Refusal::AlertMoved {
            version: alert.version,
        },
    )
}

/// Decides an acknowledgement: the dispatcher who holds a release has seen this version of its alert.
pub(crate) fn acknowledge(
    alloc: Global,
    content: &Content,
    actor: &Text,
    id: u64,
    version: u64,
) -> Result<Decision, Stop>
    ensures value { Answers (λ d. d) result (spec.decide_acknowledge content.now.state actor.now id version) }
    ensures read { IfOk result DecisionAdmitsRead }
{
    let release = held(content, id)?;
    let alert = alert_of(content, release.id)?;
    not_yours(alloc, &release.holder, actor)?;
    moved(alert, version)?;
    Ok(Decision::Do(Done::Release(release.id), Effect::acknowledge(release.id)))
}
