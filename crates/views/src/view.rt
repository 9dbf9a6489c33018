ghost use Rattle.std.specs.Prelude.{◌≡◌, IfErr, IfOk, IfSome};
ghost use Rattle.std.specs.Option.{option_copied};
ghost use Rattle.asks.specs.Ranges.{RefusalHasMoment};
ghost use Rattle.desk_state.specs.Sound.{ReleaseInBounds};
ghost use Rattle.desk_state.specs.State.{release_at};
ghost use Rattle.serde_json.specs.Data.{object};
ghost use Rattle.serde_json.specs.View.{members_view, view};
ghost use Rattle.views.specs.Views as spec;
ghost use Rattle.views.specs.Views.{IsShownAsText};

use crate::alert_objects::alerts_members;
use crate::boards::board_members;
use crate::details::detail_members;
use crate::items::deferred_members;
use crate::weather::weather_members;
use asks::{Members, Refusal};
use desk_io::{OutOfMemory, Station, Text};
use desk_state::Content;
use plan::Release;
use serde_json::Value;
use std::alloc::Global;

/// A view of the desk.
#[derive(Debug, Drop)]
pub enum View {
    /// All releases.
    Board,
    /// The alerts of all releases.
    Alerts,
    /// A release by its number.
    Release(u64),
    /// The latest weather of a station.
    Weather(Station),
    /// The open deferred items of an aircraft by its registration.
    Deferred(Text),
}

fn release_of(content: &Content, id: u64) -> Option<&Release>
    ensures release { option_copied result ≡ release_at id content.now.state.releases }
    ensures bounds { IfSome (option_copied result) ReleaseInBounds }
{
    content.holds();
    content.release(id)
}

fn release_members(
    alloc: Global,
    content: &Content,
    id: u64,
) -> Result<Result<Members, Refusal>, OutOfMemory>
    ensures { IfOk result (λ r. spec.Shows (λ all. members_view all.entries) (spec.shown content.now.state (View.Release id)) r) }
{
    match release_of(content, id) {
        None => Ok(Err(Refusal::NoSuchRelease)),
        Some(release) => Ok(Ok(detail_members(alloc, content, release)?)),
    }
}

fn station_members(
    alloc: Global,
    content: &Content,
    station: Station,
) -> Result<Result<Members, Refusal>, OutOfMemory>
    ensures { IfOk result (λ r. spec.Shows (λ all. members_view all.entries) (spec.shown content.now.state (View.Weather station)) r) }
{
    if content.tables().airport(station).is_some() {
        Ok(Ok(weather_members(alloc, content, station)?))
    } else {
        Ok(Err(Refusal::NoSuchStation))
    }
}

fn aircraft_members(
    alloc: Global,
    content: &Content,
    tail: &Text,
) -> Result<Result<Members, Refusal>, OutOfMemory>
    ensures { IfOk result (λ r. spec.Shows (λ all. members_view all.entries) (spec.shown content.now.state (View.Deferred tail.now)) r) }
{
    match content.tables().type_of(tail.bytes()) {
        None => Ok(Err(Refusal::UnknownTail)),
        Some(row) => Ok(Ok(deferred_members(alloc, content, tail, row.kind.bytes())?)),
    }
}

fn view_members(
    alloc: Global,
    content: &Content,
    view: &View,
) -> Result<Result<Members, Refusal>, OutOfMemory>
    ensures { IfOk result (λ r. spec.Shows (λ all. members_view all.entries) (spec.shown content.now.state view.now) r) }
{
    match view {
        View::Board => Ok(Ok(board_members(alloc, content)?)),
        View::Alerts => Ok(Ok(alerts_members(alloc, content)?)),
        View::Release(id) => release_members(alloc, content, *id),
        View::Weather(station) => station_members(alloc, content, *station),
        View::Deferred(tail) => aircraft_members(alloc, content, tail),
    }
}

fn object_of(members: Members) -> Value
    ensures { view result ≡ object (members_view members.entries) }
{
    Value::Object(members)
}

/// Shows a view as JSON without white space, with its keys in byte order, or says why it shows nothing.
#[tactic(auto, using(crate::proofs::TextLaws::shown_as_text))]
pub fn view_json(
    alloc: Global,
    content: &Content,
    view: &View,
) -> Result<Result<Text, Refusal>, OutOfMemory>
    ensures json { IfOk result (λ r. r ≡ spec.view_json content.now.state view.now) }
    ensures refusal { IfOk result (λ r. IfErr r RefusalHasMoment) }
    // The ask for the same as text gets the text of what the view shows.
    ensures text { IsShownAsText content.now.state view.now }
{
    content.holds();
    match view_members(alloc, content, view)? {
        Ok(members) => Ok(Ok(Text::from_vec(object_of(members).to_vec(alloc)?))),
        Err(refusal) => Ok(Err(refusal)),
    }
}
