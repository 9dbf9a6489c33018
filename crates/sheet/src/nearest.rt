ghost use Rattle.std.specs.Prelude.{◌≡◌};
ghost use Rattle.sheet.specs.Nearest as spec;

use codes::Cond;
use desk_io::Pair;

/// By how much the weather misses minima.
#[derive(Clone, Copy)]
pub struct Miss {
    /// The number of the pair of minima, from 1.
    pub number: usize,
    /// How many feet the ceiling lacks; 0 if it is high enough.
    pub ceiling: u32,
    /// How many millimetres the visibility lacks; 0 if it is long enough.
    pub vis: u32,
}

fn lacks(known: Option<u32>, least: u32) -> u32
    ensures { result ≡ spec.lacks known least }
{
    match known {
        None => least,
        Some(known) => least.saturating_sub(known),
    }
}

fn miss_of(weather: Cond, number: usize, pair: Pair) -> Miss
    ensures { result ≡ spec.miss_of weather number pair }
{
    Miss {
        number,
        ceiling: lacks(weather.ceiling, pair.ceiling),
        vis: lacks(weather.vis, pair.vis),
    }
}

// Returns true if `a` lacks fewer feet than `b`, or as many and less visibility.
fn is_less(a: Miss, b: Miss) -> bool
    ensures { result ≡ spec.is_less a b }
{
    a.ceiling < b.ceiling || a.ceiling == b.ceiling && a.vis < b.vis
}

fn lesser_miss(found: Option<Miss>, miss: Miss) -> Option<Miss>
    ensures { result ≡ spec.lesser_miss found miss }
{
    match found {
        Some(least) if !is_less(miss, least) => found,
        _ => Some(miss),
    }
}

/// Returns the least miss of the minima, and the first if several are the same; None if there are no minima. Fewer feet
/// count before less visibility.
pub(crate) fn nearest_of(weather: Cond, minima: &[Pair]) -> Option<Miss>
    ensures { result ≡ spec.nearest_of weather minima.now }
{
    let mut found = None;
    for (i, pair) in minima.iter().enumerate() {
        found = lesser_miss(found, miss_of(weather, i + 1, *pair));
    }
    found
}
