ghost use Rattle.std.specs.Prelude.{◌≡◌};
ghost use Rattle.rules.specs.HighestMet as spec;

use airport_minima::Bounds;
use codes::Cond;
use desk_io::Pair;

/// A margin of nothing.
pub(crate) const NO_MARGIN: Pair = Pair { ceiling: 0, vis: 0 };

// Returns the highest minimum that an element of the weather reaches with the margin added. An unknown element counts
// as 0.
fn highest(known: Option<u32>, margin: u32) -> Option<u32>
    ensures { result ≡ spec.highest known margin }
{
    let known = known.unwrap_or(0);
    if margin <= known {
        Some(known - margin)
    } else {
        None
    }
}

/// Returns the highest minima that the weather meets with the margin added, or None if it meets none.
pub(crate) fn highest_met(weather: Cond, margin: Pair) -> Option<Bounds>
    ensures { result ≡ spec.highest_met weather margin }
{
    let ceiling = highest(weather.ceiling, margin.ceiling)?;
    let vis = highest(weather.vis, margin.vis)?;
    Some(Bounds {
        ceiling: Some(ceiling),
        vis: Some(vis),
    })
}
