ghost use Rattle.std.specs.Prelude.{◌≡◌, IfOk};
ghost use Rattle.desk_state.specs.Decide as spec;
ghost use Rattle.decisions.specs.Answers.{Answers, Passes};
ghost use Rattle.decisions.specs.Reads.{DecisionAdmitsRead};

use crate::chain::{Stop, refused_if};
use crate::due_lines::deferral_lines;
use asks::{Done, Refusal, Reply};
use deferrals::{DEFERRAL_LIMIT, Deferral};
use desk_io::{Copied, OutOfMemory, Text};
use desk_state::{Content, Decision, Effect};
use desk_time::Minute;
use ops_tables::TypeRow;
use std::alloc::Global;

fn aircraft<'a>(content: &'a Content, tail: &[u8]) -> Result<&'a TypeRow, Stop>
    ensures { Answers (λ k. k.now) result (spec.aircraft content.now.state tail.now) }
{
    match content.tables().type_of(tail) {
        None => Err(Stop::Refused(Refusal::UnknownTail)),
        Some(kind) => Ok(kind),
    }
}

fn unlisted(content: &Content, kind: &TypeRow, item: &[u8]) -> Result<(), Stop>
    ensures { Passes result (spec.unlisted content.now.state kind.now item.now) }
{
    let row = content.tables().item(kind.kind.bytes(), item);
    refused_if(row.is_none(), Refusal::UnknownItem)
}

fn found_later(content: &Content, found: Minute) -> Result<(), Stop>
    ensures { Passes result (spec.found_later content.now.state found) }
{
    refused_if(
        content.moment() < found,
        Refusal::BadFound {
            moment: content.moment(),
        },
    )
}

fn deferrals_full(content: &Content) -> Result<(), Stop>
    ensures { Passes result (spec.deferrals_full content.now.state) }
{
    let held = content.deferrals().as_slice().len();
    refused_if(
        held >= DEFERRAL_LIMIT,
        Refusal::DeferralsFull { held: held as u64 },
    )
}

fn not_open(content: &Content, id: u64) -> Result<(), Stop>
    ensures { Passes result (spec.not_open content.now.state id) }
{
    let is_open = content.deferrals().has(id);
    refused_if(!is_open, Refusal::NoSuchDeferral)
}

fn new_deferral(
    alloc: Global,
    content: &Content,
    tail: &Text,
    item: &Text,
    found: Minute,
) -> Result<Deferral, OutOfMemory>
    ensures { IfOk result (λ d. d ≡ record {
      id = content.now.state.counters.next_deferral;
      tail = tail.now;
      item = item.now;
      found = found;
    }) }
{
    Ok(Deferral {
        id: content.counters().next_deferral,
        tail: tail.copy(alloc)?,
        item: item.copy(alloc)?,
        found,
    })
}

/// Decides a deferral of an item on an aircraft.
pub(crate) fn defer(
    alloc: Global,
    content: &Content,
    tail: &Text,
    item: &Text,
    found: Minute,
) -> Result<Decision, Stop>
    ensures value { Answers (λ d. d) result (spec.decide_defer content.now.state tail.now item.now found) }
    ensures read { IfOk result DecisionAdmitsRead }
{
    let kind = aircraft(content, tail.bytes())?;
    unlisted(content, kind, item.bytes())?;
    found_later(content, found)?;
    deferrals_full(content)?;
    let deferral = new_deferral(alloc, content, tail, item, found)?;
    Ok(Decision::Do(
        Done::Deferral(content.counters().next_deferral),
        Effect::defer(deferral),
    ))
}

/// Decides the clearing of a deferral, whose item is repaired.
pub(crate) fn clear(content: &Content, deferral: u64) -> Result<Decision, Stop>
    ensures value { Answers (λ d. d) result (spec.decide_clear content.now.state deferral) }
    ensures read { IfOk result DecisionAdmitsRead }
{
    not_open(content, deferral)?;
    Ok(Decision::Do(Done::Deferral(deferral), Effect::clear(deferral)))
}

/// Shows the open deferrals on an aircraft.
pub(crate) fn view_deferred(alloc: Global, content: &Content, tail: &Text) -> Result<Decision, Stop>
    ensures value { Answers (λ d. d) result (spec.decide_deferred content.now.state tail.now) }
    ensures read { IfOk result DecisionAdmitsRead }
{
    content.holds();
    let kind = aircraft(content, tail.bytes())?;
    let open = content.deferrals().open_on(alloc, tail.bytes())?;
    let text = deferral_lines(alloc, content.tables(), kind.kind.bytes(), &open)?;
    Ok(Decision::Show(Reply::Seen(text)))
}
