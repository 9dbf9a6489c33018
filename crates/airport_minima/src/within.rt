ghost use Rattle.std.specs.Prelude.{◌≡◌, ◌<◌, ◌^◌, map, filter};
ghost use Rattle.std.specs.List.{list_any};
ghost use Rattle.airport_minima.specs.Minima as minima;
ghost use Rattle.airport_minima.specs.Minima.{alternate_pairs, is_usable};
ghost use Rattle.airport_minima.specs.Raised.{raised, raised_freely};
ghost use Rattle.airport_minima.specs.Within as spec;
ghost use Rattle.airport_minima.specs.Within.{has_within, is_within};

use crate::derived::{are_apart, double_addend, single_addend};
use crate::usable::{SIXTEENTH, is_usable};
use desk_io::{MILE, Pair, Station};
use ops_tables::{AlternateRow, Approach, Group, Lost, Tables, TypeRow};

/// Upper bounds of minima. None is no bound.
#[derive(Clone, Copy, Debug)]
pub struct Bounds {
    /// The ceiling in feet.
    pub ceiling: Option<u32>,
    /// The visibility in millimetres.
    pub vis: Option<u32>,
}

// Whether there are alternate minima at all, with a ceiling within its bound, with such a visibility, and with both.
#[derive(Clone, Copy, Debug)]
struct Found {
    any: bool,
    ceiling: bool,
    vis: bool,
    both: bool,
}

fn is_low(bound: Option<u32>, minimum: u64) -> bool
    ensures { result ≡ spec.is_low bound minimum }
{
    match bound {
        None => true,
        Some(most) => minimum <= u64::from(most),
    }
}

fn wide_millimetres(sixteenths: u32) -> u64
    ensures value { result ≡ minima.millimetres sixteenths }
    ensures bound { result < 2 ^ 50 }
{
    u64::from(sixteenths) * u64::from(SIXTEENTH)
}

fn is_row_within(bounds: Bounds, row: &AlternateRow) -> bool
    ensures { result ≡ is_within bounds (minima.own_minima row.now) }
{
    is_low(bounds.ceiling, u64::from(row.ceiling))
        && is_low(bounds.vis, wide_millimetres(row.vis16))
}

// Returns true if one of the airport's own alternate minima is within the bounds.
fn has_own_within(bounds: Bounds, rows: &Group<'_, AlternateRow>) -> bool
    ensures { result ≡ has_within bounds (map (λ r. minima.own_minima r) rows.now) }
{
    for place in 0..rows.len() {
        if is_row_within(bounds, rows.row(place)) {
            return true;
        }
    }
    false
}

fn is_single_within(bounds: Bounds, addend: Pair, approach: &Approach) -> bool
    ensures { result ≡ is_within bounds (minima.single addend approach.now) }
{
    let ceiling = u64::from(approach.ceiling) + u64::from(addend.ceiling);
    let vis = wide_millimetres(approach.vis16) + u64::from(addend.vis);
    is_low(bounds.ceiling, ceiling) && is_low(bounds.vis, vis)
}

// Returns true if the minima of one approach, with the addend, are within the bounds.
fn has_single_within(
    bounds: Bounds,
    addend: Pair,
    approaches: &Group<'_, Approach>,
    kind: &TypeRow,
    lost: &Lost,
) -> bool
    ensures { result ≡ has_within bounds (map (λ a. minima.single addend a)
        (filter (λ a. is_usable kind.now lost.now a) approaches.now)) }
{
    for place in 0..approaches.len() {
        let approach = approaches.row(place);
        if is_usable(kind, lost, approach) && is_single_within(bounds, addend, approach) {
            return true;
        }
    }
    false
}

// Returns true if the minima of two approaches to different runways are within the bounds. They are exactly if those
// of each approach alone, with the addend, are. So each further approach is compared only with the first.
fn has_double_within(
    bounds: Bounds,
    addend: Pair,
    approaches: &Group<'_, Approach>,
    kind: &TypeRow,
    lost: &Lost,
) -> bool
    ensures { result ≡ has_within bounds (minima.doubles addend
        (filter (λ a. is_usable kind.now lost.now a) approaches.now)) }
{
    let mut first: Option<&Approach> = None;
    for place in 0..approaches.len() {
        let approach = approaches.row(place);
        if is_usable(kind, lost, approach) && is_single_within(bounds, addend, approach) {
            match first {
                None => first = Some(approach),
                Some(one) if are_apart(one, approach) => return true,
                Some(_) => {}
            }
        }
    }
    false
}

fn has_derived_within(
    tables: &Tables,
    kind: &TypeRow,
    station: Station,
    lost: &Lost,
    bounds: Bounds,
) -> bool
    ensures { result ≡ has_within bounds (minima.derived tables.now.settings
        (minima.usable tables.now kind.now station lost.now)) }
{
    let settings = tables.settings();
    let approaches = tables.approaches(station);
    has_single_within(bounds, single_addend(settings), &approaches, kind, lost)
        || has_double_within(bounds, double_addend(settings), &approaches, kind, lost)
}

/// Returns true if one of the station's alternate minima (14 CFR 121.625) is at or below these bounds in both
/// elements. The minima are those that `alternate_pairs` lists. It allocates nothing and examines each approach at
/// most twice.
#[tactic(auto, unfolding(crate::specs::Minima::alternate_pairs))]
pub fn has_alternate_within(
    tables: &Tables,
    kind: &TypeRow,
    station: Station,
    lost: &Lost,
    bounds: Bounds,
) -> bool
    ensures { result ≡ has_within bounds (alternate_pairs tables.now kind.now station lost.now) }
{
    let own = tables.alternates(station);
    if !own.is_empty() {
        return has_own_within(bounds, &own);
    }
    has_derived_within(tables, kind, station, lost, bounds)
}

fn found_at(tables: &Tables, kind: &TypeRow, station: Station, lost: &Lost, bounds: Bounds) -> Found
    ensures { result ≡ spec.found_among bounds (alternate_pairs tables.now kind.now station lost.now) }
{
    let none = Bounds {
        ceiling: None,
        vis: None,
    };
    let ceiling = Bounds {
        ceiling: bounds.ceiling,
        vis: None,
    };
    let vis = Bounds {
        ceiling: None,
        vis: bounds.vis,
    };
    Found {
        any: has_alternate_within(tables, kind, station, lost, none),
        ceiling: has_alternate_within(tables, kind, station, lost, ceiling),
        vis: has_alternate_within(tables, kind, station, lost, vis),
        both: has_alternate_within(tables, kind, station, lost, bounds),
    }
}

fn is_freely_within(bounds: Bounds, landing: Pair) -> bool
    ensures { result ≡ is_within bounds (raised_freely landing) }
{
    let ceiling = (u64::from(landing.ceiling) + 100).max(300);
    let vis = (u64::from(landing.vis) + u64::from(MILE / 2)).max(u64::from(MILE));
    is_low(bounds.ceiling, ceiling) && is_low(bounds.vis, vis)
}

fn found_for(found: Found, ceiling: bool, vis: bool) -> bool
    ensures { result ≡ spec.found_for found ceiling vis }
{
    match (ceiling, vis) {
        (true, true) => true,
        (true, false) => found.vis,
        (false, true) => found.ceiling,
        (false, false) => found.both,
    }
}

fn is_limited_within(bounds: Bounds, found: Found, landing: Pair) -> bool
    ensures { result ≡ spec.is_limited_within bounds found landing }
{
    let low = is_low(bounds.ceiling, u64::from(landing.ceiling.max(300)))
        && is_low(bounds.vis, u64::from(landing.vis.max(MILE)));
    let ceiling = is_low(bounds.ceiling, u64::from(landing.ceiling) + 100);
    let vis = is_low(bounds.vis, u64::from(landing.vis) + u64::from(MILE / 2));
    low && found_for(found, ceiling, vis)
}

fn is_raised_within(bounds: Bounds, found: Found, landing: Pair) -> bool
    ensures { result ≡ spec.is_raised_within bounds found landing }
{
    if found.any {
        is_limited_within(bounds, found, landing)
    } else {
        is_freely_within(bounds, landing)
    }
}

fn some_raised_within(bounds: Bounds, found: Found, landing: &[Pair]) -> bool
    ensures { result ≡ list_any (λ l. spec.is_raised_within bounds found l) landing.now }
{
    landing
        .iter()
        .any(|pair| is_raised_within(bounds, found, *pair))
}

/// Returns true if one of the raised landing minima is at or below these bounds in both elements. They are raised for
/// a captain with few hours in the type (14 CFR 121.652), and are those that `raised` lists. It allocates nothing and
/// examines each of the landing minima once.
#[tactic(auto, using(crate::proofs::RaisedWithin::raised_within))]
pub fn has_raised_within(
    tables: &Tables,
    kind: &TypeRow,
    station: Station,
    lost: &Lost,
    landing: &[Pair],
    bounds: Bounds,
) -> bool
    ensures { result ≡ has_within bounds (raised landing.now
        (alternate_pairs tables.now kind.now station lost.now)) }
{
    let found = found_at(tables, kind, station, lost, bounds);
    some_raised_within(bounds, found, landing)
}
