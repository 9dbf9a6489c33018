ghost use Rattle.std.specs.Prelude.{◌≡◌, ◌≤◌, length, filter, All, IfSome, MatchOption};
ghost use Rattle.ops_tables.specs.Limits.{FitsApproach};
ghost use Rattle.airport_minima.specs.Minima.{is_usable, usable};
ghost use Rattle.airport_minima.specs.Floor as spec;
ghost use Rattle.airport_minima.specs.Flown.{AreFlown};
ghost use Rattle.airport_minima.specs.Floor.{flag_floor};
ghost use Rattle.airport_minima.specs.Lowest.{IsFlagFloor};

use crate::usable::{is_usable, millimetres};
use desk_io::{MILE, Pair, Station};
use ops_tables::{Approach, Group, Lost, Tables, TypeRow};

/// The least height in feet and the least visibility in sixteenths of a statute mile of some approaches.
#[derive(Clone, Copy, Debug)]
struct Lowest {
    height: u32,
    vis16: u32,
}

fn lowest_with(lowest: Option<Lowest>, approach: &Approach) -> Lowest
    ensures { result ≡ spec.lower approach.now lowest }
{
    match lowest {
        None => Lowest {
            height: approach.height,
            vis16: approach.vis16,
        },
        Some(lowest) => Lowest {
            height: approach.height.min(lowest.height),
            vis16: approach.vis16.min(lowest.vis16),
        },
    }
}

#[tactic(auto, using(crate::proofs::RowLaws::approach_fits))]
fn lowest_usable(approaches: &Group<'_, Approach>, kind: &TypeRow, lost: &Lost) -> Option<Lowest>
    requires { All FitsApproach approaches.now }
    ensures value { result ≡ spec.lowest_of (filter (λ a. is_usable kind.now lost.now a) approaches.now) }
    ensures within { IfSome result (λ l. (l.height ≤ 20_000) × (l.vis16 ≤ 160)) }
{
    let mut lowest = None;
    for place in 0..approaches.len() {
        let approach = approaches.row(place);
        if is_usable(kind, lost, approach) {
            lowest = Some(lowest_with(lowest, approach));
        }
    }
    lowest
}

fn circle_of(tables: &Tables, station: Station) -> u32
    ensures value { result ≡ spec.circle_of tables.now station }
    ensures within { result ≤ 20_000 }
{
    match tables.airport(station) {
        None => 0,
        Some(airport) => airport.circle,
    }
}

fn floor_ceiling(circle: u32, height: u32) -> u32
    requires circle { circle ≤ 20_000 }
    requires height { height ≤ 20_000 }
    ensures { result ≡ spec.floor_ceiling circle height }
{
    if circle > 0 {
        circle + 1_500
    } else {
        (height + 1_500).max(2_000)
    }
}

fn floor_vis(vis16: u32) -> u32
    requires { vis16 ≤ 160 }
    ensures { result ≡ spec.floor_vis vis16 }
{
    (millimetres(vis16) + 2 * MILE).max(3 * MILE)
}

#[tactic(auto, unfolding(crate::specs::Floor::flag_floor))]
fn floor_over(tables: &Tables, kind: &TypeRow, station: Station, lost: &Lost) -> Option<Pair>
    ensures { result ≡ flag_floor tables.now kind.now station lost.now }
{
    let lowest = lowest_usable(&tables.approaches(station), kind, lost)?;
    Some(Pair {
        ceiling: floor_ceiling(circle_of(tables, station), lowest.height),
        vis: floor_vis(lowest.vis16),
    })
}

/// Returns the least weather at the destination in which a flag flight needs no alternate (14 CFR 121.621(a)(1)). It
/// is None exactly if the type can fly no approach there. The ceiling is 1,500 feet above the circling minimum.
/// Without circling it is 1,500 feet above the lowest height, but at least 2,000 feet. The visibility is 2 statute
/// miles more than the lowest of an approach, but at least 3. It allocates nothing.
pub fn flag_floor(tables: &Tables, kind: &TypeRow, station: Station, lost: &Lost) -> Option<Pair>
    ensures value { result ≡ flag_floor tables.now kind.now station lost.now }
    ensures lowest { MatchOption result (length (usable tables.now kind.now station lost.now) ≡ 0)
        (λ floor. IsFlagFloor tables.now kind.now station lost.now floor) }
    ensures flown { AreFlown tables.now kind.now station lost.now }
{
    floor_over(tables, kind, station, lost)
}
