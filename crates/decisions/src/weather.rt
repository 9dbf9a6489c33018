ghost use Rattle.std.specs.Prelude.{◌≡◌, IfOk};
ghost use Rattle.facts.specs.Lines.{weather_at};

use desk_io::{OutOfMemory, Station, Text};
use facts::{Reports, push_weather_at};
use std::alloc::Global;

/// Shows the latest weather of a station: the line of its latest METAR or SPECI, then that of its latest TAF, if any.
pub fn weather_view(alloc: Global, reports: &Reports, station: Station) -> Result<Text, OutOfMemory>
    ensures { IfOk result (λ t. t ≡ weather_at reports.now.reports station) }
{
    let mut out = Vec::new(alloc);
    push_weather_at(&mut out, reports, station)?;
    Ok(Text::from_vec(out))
}
