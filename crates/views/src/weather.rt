ghost use Rattle.std.specs.Prelude.{◌≡◌, IfOk, IfSome};
ghost use Rattle.std.specs.Option.{option_copied};
ghost use Rattle.asks.specs.Canonical.{option_data};
ghost use Rattle.facts.specs.Reading.{HasMoments};
ghost use Rattle.serde_json.specs.View.{members_view, view};
ghost use Rattle.views.specs.Objects as spec;
ghost use Rattle.views.specs.Shown.{weather_shown};

use crate::observations::read_members;
use asks::{Members, with_moment, with_text, with_value};
use desk_io::{OutOfMemory, Station};
use desk_state::Content;
use facts::Report;
use serde_json::{Map, Value};
use std::alloc::Global;

fn optional_report(alloc: Global, report: Option<&Report>) -> Result<Value, OutOfMemory>
    requires { IfSome (option_copied report) HasMoments }
    ensures { IfOk result (λ v. view v ≡ option_data spec.report_data (option_copied report.entry)) }
{
    match report {
        None => Ok(Value::Null),
        Some(report) => Ok(Value::Object(read_members(
            alloc,
            report.id,
            &report.text,
            &report.read,
        )?)),
    }
}

/// The members of the view of a station's weather.
pub(crate) fn weather_members(
    alloc: Global,
    content: &Content,
    station: Station,
) -> Result<Members, OutOfMemory>
    ensures { IfOk result (λ all. members_view all.entries ≡ spec.weather_members
        (weather_shown content.now.state station)) }
{
    content.holds();
    let members = with_moment(alloc, Map::new(alloc), "at", content.moment())?;
    let metar = optional_report(alloc, content.reports().latest_metar(station))?;
    let members = with_value(alloc, members, "metar", metar)?;
    let members = with_text(alloc, members, "station", &station.bytes())?;
    let taf = optional_report(alloc, content.reports().latest_taf(station))?;
    with_value(alloc, members, "taf", taf)
}
