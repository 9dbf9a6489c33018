ghost use Rattle.std.specs.Prelude.{◌≡◌, ◌≤◌, ◌++◌, map, IfOk, OnOk};
ghost use Rattle.desk_io.specs.Pair.{AreWithin};
ghost use Rattle.airport_minima.specs.Raised as spec;
ghost use Rattle.airport_minima.specs.Raised.{raised};
ghost use Rattle.airport_minima.specs.FewHours.{AreRaised};

use desk_io::{Listed, MILE, OutOfMemory, Pair, Pairs};
use std::alloc::Global;

fn increased(landing: Pair) -> Pair
    requires ceiling { landing.ceiling ≤ 40_000 }
    requires vis { landing.vis ≤ 32_186_880 }
    ensures { result ≡ spec.increased landing }
{
    let addend = Pair {
        ceiling: 100,
        vis: MILE / 2,
    };
    landing.raised(addend)
}

fn least() -> Pair
    ensures { result ≡ spec.least }
{
    Pair {
        ceiling: 300,
        vis: MILE,
    }
}

fn lower(a: Pair, b: Pair) -> Pair
    ensures { result ≡ spec.lower a b }
{
    Pair {
        ceiling: a.ceiling.min(b.ceiling),
        vis: a.vis.min(b.vis),
    }
}

fn raised_freely(landing: Pair) -> Pair
    requires ceiling { landing.ceiling ≤ 40_000 }
    requires vis { landing.vis ≤ 32_186_880 }
    ensures { result ≡ spec.raised_freely landing }
{
    least().higher(increased(landing))
}

fn raised_to(landing: Pair, alternate: Pair) -> Pair
    requires ceiling { landing.ceiling ≤ 40_000 }
    requires vis { landing.vis ≤ 32_186_880 }
    ensures { result ≡ spec.raised_to landing alternate }
{
    let limited = lower(increased(landing), alternate);
    least().higher(landing.higher(limited))
}

// Adds the raised landing minima, limited by each of the alternate minima in turn.
fn push_each(pairs: &mut Vec<Pair>, landing: Pair, alternate: &[Pair]) -> Result<(), OutOfMemory>
    requires ceiling { landing.ceiling ≤ 40_000 }
    requires vis { landing.vis ≤ 32_186_880 }
    ensures { OnOk result (pairs.new.items ≡ pairs.old.items ++ map (λ a. spec.raised_to landing a) alternate.now) }
{
    for it in alternate {
        pairs.push(raised_to(landing, *it))?;
    }
    Ok(())
}

// Adds the raised landing minima, limited by the alternate minima if there are any.
fn push_raised(pairs: &mut Vec<Pair>, landing: Pair, alternate: &[Pair]) -> Result<(), OutOfMemory>
    requires ceiling { landing.ceiling ≤ 40_000 }
    requires vis { landing.vis ≤ 32_186_880 }
    ensures { OnOk result (pairs.new.items ≡ pairs.old.items ++ spec.raised_by alternate.now landing) }
{
    if !alternate.is_empty() {
        return push_each(pairs, landing, alternate);
    }
    pairs.push(raised_freely(landing))?;
    Ok(())
}

fn each_raised(
    alloc: Global,
    landing: &[Pair],
    alternate: &[Pair],
) -> Result<Vec<Pair>, OutOfMemory>
    requires { AreWithin 40_000 32_186_880 landing.now }
    ensures { IfOk result (λ v. v.items ≡ spec.each_raised landing.now alternate.now) }
{
    let mut pairs = Vec::new(alloc);
    for it in landing {
        push_raised(&mut pairs, *it, alternate)?;
    }
    Ok(pairs)
}

#[tactic(auto, unfolding(crate::specs::Raised::raised))]
fn raised_pairs(alloc: Global, landing: &Pairs, alternate: &Pairs) -> Result<Pairs, OutOfMemory>
    requires { AreWithin 40_000 32_186_880 landing.now }
    ensures { IfOk result (λ pairs. pairs ≡ raised landing.now alternate.now) }
{
    let pairs = each_raised(alloc, landing.as_slice(), alternate.as_slice())?;
    Ok(Listed::from_vec(pairs))
}

/// Returns the landing minima of a station for a captain with few hours in the type (14 CFR 121.652). Each is raised
/// by 100 feet and half a mile, but not above the station's alternate minima. None is below 300 feet and one mile, or
/// below what it was. Each of the landing minima is limited by each of the alternate minima in turn. Without
/// alternate minima there is no limit.
pub fn raised(alloc: Global, landing: &Pairs, alternate: &Pairs) -> Result<Pairs, OutOfMemory>
    requires { AreWithin 40_000 32_186_880 landing.now }
    ensures value { IfOk result (λ pairs. pairs ≡ raised landing.now alternate.now) }
    ensures minima { IfOk result (λ pairs. AreRaised landing.now alternate.now pairs) }
{
    raised_pairs(alloc, landing, alternate)
}
