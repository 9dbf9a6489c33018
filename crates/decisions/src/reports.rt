ghost use Rattle.std.specs.Prelude.{◌≡◌, ℕ, IfOk};
ghost use Rattle.codes.specs.Groups.{groups_of, canonical};
ghost use Rattle.facts.specs.Reading.{read_of, report_of, IsRead};
ghost use Rattle.facts.specs.Same.{same_id, minute_of_read};
ghost use Rattle.desk_state.specs.Decide as spec;
ghost use Rattle.decisions.specs.Answers.{Answers, Passes};
ghost use Rattle.decisions.specs.Reads.{DecisionAdmitsRead};

use crate::chain::{Stop, refused_if};
use crate::weather::weather_view;
use asks::{Done, Refusal, Reply};
use codes::{BadReport, ReportFault, Why};
use desk_io::{Station, Text};
use desk_state::{Content, Decision, Effect};
use facts::{HELD_LIMIT, Received, Report, receive};
use std::alloc::Global;

fn refusal_for(bad: BadReport) -> Refusal
    ensures { result ≡ spec.refusal_for bad.group bad.why }
{
    match bad.why {
        Why::DayOutOfReach => Refusal::DayOutOfReach { group: bad.group },
        what => Refusal::BadReport {
            group: bad.group,
            what,
        },
    }
}

fn received(alloc: Global, content: &Content, text: &[u8]) -> Result<Received, Stop>
    ensures value { Answers (λ r. r.read) result (spec.reading_or (read_of text.now content.now.state.moment)) }
    ensures text { IfOk result (λ r. r.text ≡ canonical (groups_of text.now)) }
    ensures read { IfOk result (λ r. (id : ℕ) → IsRead (report_of id content.now.state.moment r)) }
{
    content.holds();
    match receive(alloc, text, content.moment()) {
        Ok(received) => Ok(received),
        Err(ReportFault::Bad(bad)) => Err(Stop::Refused(refusal_for(bad))),
        Err(ReportFault::OutOfMemory) => Err(Stop::OutOfMemory),
    }
}

fn no_airport(content: &Content, station: Station) -> Result<(), Stop>
    ensures { Passes result (spec.no_airport content.now.state station) }
{
    refused_if(
        content.tables().airport(station).is_none(),
        Refusal::NoSuchStation,
    )
}

fn reports_full(content: &Content) -> Result<(), Stop>
    ensures { Passes result (spec.reports_full content.now.state) }
{
    let held = content.reports().len();
    refused_if(
        held >= HELD_LIMIT,
        Refusal::ReportsFull { held: held as u64 },
    )
}

fn admit_new(content: &Content, received: Received) -> Result<Decision, Stop>
    requires { (id : ℕ) → IsRead (report_of id content.now.state.moment received) }
    ensures value { Answers (λ d. d) result (spec.admit_new content.now.state received.text received.read) }
    ensures read { IfOk result DecisionAdmitsRead }
{
    reports_full(content)?;
    let id = content.counters().next_report;
    let Received { text, read } = received;
    let report = Report {
        id,
        received: content.moment(),
        text,
        read,
    };
    Ok(Decision::Do(Done::Report(id), Effect::admit(report)))
}

fn admit_received(content: &Content, received: Received) -> Result<Decision, Stop>
    requires { (id : ℕ) → IsRead (report_of id content.now.state.moment received) }
    ensures value { Answers (λ d. d) result (spec.admit_read (same_id content.now.state.reports received.text
        (minute_of_read received.read)) content.now.state received.text received.read) }
    ensures read { IfOk result DecisionAdmitsRead }
{
    let same = content
        .reports()
        .same(received.text.bytes(), received.read.minute());
    match same {
        Some(id) => Ok(Decision::Show(Reply::Done(Done::Report(id)))),
        None => admit_new(content, received),
    }
}

/// Decides the admission of a report. The text is read at the desk's moment. A report that the desk holds already
/// keeps its id.
pub(crate) fn admit(alloc: Global, content: &Content, text: &Text) -> Result<Decision, Stop>
    ensures value { Answers (λ d. d) result (spec.decide_admit content.now.state text.now) }
    ensures read { IfOk result DecisionAdmitsRead }
{
    let received = received(alloc, content, text.bytes())?;
    no_airport(content, received.read.station())?;
    admit_received(content, received)
}

/// Shows the latest weather of an airport.
pub(crate) fn view_weather(
    alloc: Global,
    content: &Content,
    station: Station,
) -> Result<Decision, Stop>
    ensures value { Answers (λ d. d) result (spec.decide_weather content.now.state station) }
    ensures read { IfOk result DecisionAdmitsRead }
{
    no_airport(content, station)?;
    let text = weather_view(alloc, content.reports(), station)?;
    Ok(Decision::Show(Reply::Seen(text)))
}
