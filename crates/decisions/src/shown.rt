ghost use Rattle.std.specs.Prelude.{[], IfOk};
ghost use Rattle.desk_state.specs.Decide as spec;
ghost use Rattle.decisions.specs.Answers.{Answers};
ghost use Rattle.decisions.specs.Reads.{DecisionAdmitsRead};

use crate::alert_lines::alerts_view;
use crate::boards::board_view;
use crate::chain::Stop;
use crate::release_lines::release_view;
use crate::releases::held;
use asks::{Ask, Reply};
use desk_state::{Content, Decision};
use std::alloc::Global;

/// Shows the releases.
pub(crate) fn view_board(alloc: Global, content: &Content) -> Result<Decision, Stop>
    ensures value { Answers (λ d. d) result (spec.decide_ask content.now.state [] Ask.ViewBoard) }
    ensures read { IfOk result DecisionAdmitsRead }
{
    let text = board_view(alloc, content)?;
    Ok(Decision::Show(Reply::Seen(text)))
}

/// Shows the alerts of all releases.
pub(crate) fn view_alerts(alloc: Global, content: &Content) -> Result<Decision, Stop>
    ensures value { Answers (λ d. d) result (spec.decide_ask content.now.state [] Ask.ViewAlerts) }
    ensures read { IfOk result DecisionAdmitsRead }
{
    let text = alerts_view(alloc, content)?;
    Ok(Decision::Show(Reply::Seen(text)))
}

/// Shows a release and the texts of its revisions.
pub(crate) fn view_release(alloc: Global, content: &Content, id: u64) -> Result<Decision, Stop>
    ensures value { Answers (λ d. d) result (spec.decide_release content.now.state id) }
    ensures read { IfOk result DecisionAdmitsRead }
{
    let release = held(content, id)?;
    let text = release_view(alloc, release)?;
    Ok(Decision::Show(Reply::Seen(text)))
}
