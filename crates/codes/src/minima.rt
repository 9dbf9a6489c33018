ghost use Rattle.std.specs.Prelude.{◌≡◌};
ghost use Rattle.codes.specs.Minima as spec;

use crate::cond::Cond;
use desk_io::Pair;

fn reaches(value: Option<u32>, least: u32) -> bool
    ensures { result ≡ spec.reaches value least }
{
    match value {
        None => least == 0,
        Some(known) => least <= known,
    }
}

impl Cond {
    /// Returns true if ceiling and visibility are both at or above these minima. An unknown element meets only a
    /// minimum of 0.
    pub fn is_at_least(self, minima: Pair) -> bool
        ensures { result ≡ spec.is_met self minima }
    {
        reaches(self.ceiling, minima.ceiling) && reaches(self.vis, minima.vis)
    }
}

/// Returns true if the weather is at or above at least one of these pairs of minima (14 CFR 121.613, 121.625). An
/// unknown element meets only a minimum of 0.
#[tactic(auto, unfolding(crate::specs::Minima::meets))]
pub fn meets(cond: Cond, pairs: &[Pair]) -> bool
    ensures { result ≡ spec.meets cond pairs.now }
{
    pairs.iter().any(|pair| cond.is_at_least(*pair))
}
