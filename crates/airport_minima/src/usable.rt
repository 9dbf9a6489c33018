ghost use Rattle.std.specs.Prelude.{◌≡◌, ◌≤◌, map, filter, All, IfOk};
ghost use Rattle.ops_tables.specs.Limits.{FitsApproach};
ghost use Rattle.airport_minima.specs.Minima as spec;

use desk_io::{OutOfMemory, Pair};
use ops_tables::{Approach, Group, Lost, TypeRow, has_name};
use std::alloc::Global;

/// A sixteenth of a statute mile in millimetres.
pub(crate) const SIXTEENTH: u32 = 100_584;

/// Converts sixteenths of a statute mile to millimetres, up to ten miles.
pub fn millimetres(sixteenths: u32) -> u32
    requires { sixteenths ≤ 160 }
    ensures { result ≡ spec.millimetres sixteenths }
{
    sixteenths * SIXTEENTH
}

// Returns true if the type can fly the approach: it has the capability for it and hasn't lost it.
pub(crate) fn is_usable(kind: &TypeRow, lost: &Lost, approach: &Approach) -> bool
    ensures { result ≡ spec.is_usable kind.now lost.now approach.now }
{
    let capability = approach.capability.bytes();
    kind.capabilities.has(capability) && !has_name(lost, capability)
}

// Returns the landing minima of an approach.
pub(crate) fn minima_of(approach: &Approach) -> Pair
    requires { FitsApproach approach.now }
    ensures value { result ≡ spec.minima_of approach.now }
    ensures ceiling { result.ceiling ≤ 20_000 }
    ensures vis { result.vis ≤ 16_093_440 }
{
    Pair {
        ceiling: approach.ceiling,
        vis: millimetres(approach.vis16),
    }
}

// Returns the approaches that the type can fly, in the order of the group.
pub(crate) fn usable<'a>(
    alloc: Global,
    approaches: &Group<'a, Approach>,
    kind: &TypeRow,
    lost: &Lost,
) -> Result<Vec<&'a Approach>, OutOfMemory>
    requires { All FitsApproach approaches.now }
    ensures value { IfOk result (λ v. map (λ a. a.now) v.items
        ≡ filter (λ a. spec.is_usable kind.now lost.now a) approaches.now) }
    ensures within { IfOk result (λ v. All (λ a. FitsApproach a.now) v.items) }
{
    let mut usable = Vec::new(alloc);
    for place in 0..approaches.len() {
        let approach = approaches.row(place);
        if is_usable(kind, lost, approach) {
            usable.push(approach)?;
        }
    }
    Ok(usable)
}
