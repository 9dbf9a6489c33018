ghost use Rattle.std.specs.Prelude.{◌≡◌};
ghost use Rattle.http.specs.StatusCode.{IsStatusCode};
ghost use Rattle.service.specs.Statuses as spec;

use asks::{Refusal, Reply};
use desk_state::Said;

fn status_of_refusal(refusal: &Refusal) -> u16
    ensures status { result ≡ spec.status_of_refusal refusal.now }
    ensures code { IsStatusCode result }
{
    match refusal {
        Refusal::UnknownActor | Refusal::WrongKey => 401,
        Refusal::NotYourRole | Refusal::NotYours { .. } => 403,
        Refusal::UnknownTail
        | Refusal::NoSuchDeferral
        | Refusal::NoSuchRelease
        | Refusal::NoSuchAlert
        | Refusal::NoSuchStation
        | Refusal::UnknownItem => 404,
        Refusal::NumberReused { .. }
        | Refusal::NotPending { .. }
        | Refusal::WrongRevision { .. }
        | Refusal::WrongText { .. }
        | Refusal::WeatherNewer { .. }
        | Refusal::RuleFails { .. }
        | Refusal::WrongPhase { .. }
        | Refusal::AlreadySigned
        | Refusal::AlertMoved { .. }
        | Refusal::TooYoung { .. }
        | Refusal::NumberSwept { .. } => 409,
        Refusal::BadReport { .. }
        | Refusal::DayOutOfReach { .. }
        | Refusal::BadPlan { .. }
        | Refusal::BadFound { .. } => 422,
        Refusal::Unkept { .. } => 503,
        Refusal::ReportsFull { .. }
        | Refusal::ReleasesFull { .. }
        | Refusal::HistoryFull { .. }
        | Refusal::DeferralsFull { .. } => 507,
    }
}

fn status_of_reply(reply: &Reply) -> u16
    ensures status { result ≡ spec.status_of_reply reply.now }
    ensures code { IsStatusCode result }
{
    match reply {
        Reply::Done(_) | Reply::Seen(_) => 200,
        Reply::Refused(refusal) => status_of_refusal(refusal),
    }
}

/// The HTTP status for a reply, or for the fault of a text that is no call (RFC 9110, section 15):
///
/// - 200: the call was accepted, or its view is shown;
/// - 400: the text is no call;
/// - 401: `UnknownActor`, `WrongKey`;
/// - 403: `NotYourRole`, `NotYours`;
/// - 404: `UnknownTail`, `NoSuchDeferral`, `NoSuchRelease`, `NoSuchAlert`, `NoSuchStation`, `UnknownItem`;
/// - 409: `NumberReused`, `NotPending`, `WrongRevision`, `WrongText`, `WeatherNewer`, `RuleFails`, `WrongPhase`,
///   `AlreadySigned`, `AlertMoved`, `TooYoung`, `NumberSwept`;
/// - 422: `BadReport`, `DayOutOfReach`, `BadPlan`, `BadFound`;
/// - 503: `Unkept`;
/// - 507: `ReportsFull`, `ReleasesFull`, `HistoryFull`, `DeferralsFull`.
pub fn status_of(said: &Said) -> u16
    ensures status { result ≡ spec.status_of said.now }
    ensures code { IsStatusCode result }
{
    match said {
        Said::Reply(reply) => status_of_reply(reply),
        Said::Bad(_) => 400,
    }
}
