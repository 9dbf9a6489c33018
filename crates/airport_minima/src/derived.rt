ghost use Rattle.std.specs.Prelude.{◌≡◌, ◌≤◌, ◌++◌, map, filter, All, IfOk, OnOk};
ghost use Rattle.ops_tables.specs.Limits.{FitsApproach, FitsAlternate, FitsSettings};
ghost use Rattle.desk_io.specs.Pair.{AreWithin};
ghost use Rattle.airport_minima.specs.Minima as spec;
ghost use Rattle.airport_minima.specs.Minima.{landing, alternate_pairs};
ghost use Rattle.airport_minima.specs.Alternate.{AreAlternateMinima};
ghost use Rattle.airport_minima.specs.Flown.{AreFlown, AreLandingMinima};

use crate::usable::{millimetres, minima_of, usable};
use desk_io::{Listed, OutOfMemory, Pair, Pairs, Station};
use ops_tables::{AlternateRow, Approach, Group, Lost, Settings, Tables, TypeRow};
use std::alloc::Global;

fn landing_minima(alloc: Global, usable: &[&Approach]) -> Result<Vec<Pair>, OutOfMemory>
    requires { All (λ a. FitsApproach a.now) usable.now }
    ensures value { IfOk result (λ v. v.items ≡ map (λ a. spec.minima_of a) (map (λ a. a.now) usable.now)) }
    ensures within { IfOk result (λ v. AreWithin 20_000 16_093_440 v.items) }
{
    let mut pairs = Vec::new(alloc);
    for approach in usable {
        pairs.push(minima_of(approach))?;
    }
    Ok(pairs)
}

#[tactic(auto, unfolding(crate::specs::Minima::landing))]
fn landing_of_usable(
    alloc: Global,
    tables: &Tables,
    kind: &TypeRow,
    station: Station,
    lost: &Lost,
) -> Result<Pairs, OutOfMemory>
    ensures value { IfOk result (λ pairs. pairs ≡ landing tables.now kind.now station lost.now) }
    ensures within { IfOk result (λ pairs. AreWithin 20_000 16_093_440 pairs) }
{
    let usable = usable(alloc, &tables.approaches(station), kind, lost)?;
    Ok(Listed::from_vec(landing_minima(alloc, &usable)?))
}

/// Returns the landing minima of a station: those of each approach that the type can fly, in the order of the table
/// (14 CFR 121.613). A type can fly an approach if it has the capability for it and that capability isn't in `lost`.
pub fn landing(
    alloc: Global,
    tables: &Tables,
    kind: &TypeRow,
    station: Station,
    lost: &Lost,
) -> Result<Pairs, OutOfMemory>
    ensures value { IfOk result (λ pairs. pairs ≡ landing tables.now kind.now station lost.now) }
    ensures minima { IfOk result (λ pairs. AreLandingMinima tables.now kind.now station lost.now pairs) }
    ensures within { IfOk result (λ pairs. AreWithin 20_000 16_093_440 pairs) }
{
    landing_of_usable(alloc, tables, kind, station, lost)
}

pub(crate) fn single_addend(settings: Settings) -> Pair
    requires { FitsSettings settings }
    ensures value { result ≡ spec.single_addend settings }
    ensures ceiling { result.ceiling ≤ 20_000 }
    ensures vis { result.vis ≤ 16_093_440 }
{
    Pair {
        ceiling: settings.single_ceiling,
        vis: millimetres(settings.single_vis16),
    }
}

pub(crate) fn double_addend(settings: Settings) -> Pair
    requires { FitsSettings settings }
    ensures value { result ≡ spec.double_addend settings }
    ensures ceiling { result.ceiling ≤ 20_000 }
    ensures vis { result.vis ≤ 16_093_440 }
{
    Pair {
        ceiling: settings.double_ceiling,
        vis: millimetres(settings.double_vis16),
    }
}

fn single(addend: Pair, approach: &Approach) -> Pair
    requires fits { FitsApproach approach.now }
    requires ceiling { addend.ceiling ≤ 20_000 }
    requires vis { addend.vis ≤ 16_093_440 }
    ensures value { result ≡ spec.single addend approach.now }
    ensures within_ceiling { result.ceiling ≤ 40_000 }
    ensures within_vis { result.vis ≤ 32_186_880 }
{
    minima_of(approach).raised(addend)
}

fn singles(alloc: Global, addend: Pair, usable: &[&Approach]) -> Result<Vec<Pair>, OutOfMemory>
    requires fits { All (λ a. FitsApproach a.now) usable.now }
    requires ceiling { addend.ceiling ≤ 20_000 }
    requires vis { addend.vis ≤ 16_093_440 }
    ensures value { IfOk result (λ v. v.items ≡ map (λ a. spec.single addend a) (map (λ a. a.now) usable.now)) }
    ensures within { IfOk result (λ v. AreWithin 40_000 32_186_880 v.items) }
{
    let mut pairs = Vec::new(alloc);
    for approach in usable {
        pairs.push(single(addend, approach))?;
    }
    Ok(pairs)
}

fn double(addend: Pair, first: &Approach, second: &Approach) -> Pair
    requires first { FitsApproach first.now }
    requires second { FitsApproach second.now }
    requires ceiling { addend.ceiling ≤ 20_000 }
    requires vis { addend.vis ≤ 16_093_440 }
    ensures value { result ≡ spec.double addend first.now second.now }
    ensures within_ceiling { result.ceiling ≤ 40_000 }
    ensures within_vis { result.vis ≤ 32_186_880 }
{
    minima_of(first).higher(minima_of(second)).raised(addend)
}

pub(crate) fn are_apart(first: &Approach, second: &Approach) -> bool
    ensures { result ≡ spec.are_apart first.now second.now }
{
    second.runway.bytes() != first.runway.bytes()
}

// Adds the minima of an approach with each later one to another runway.
fn push_doubles(
    pairs: &mut Vec<Pair>,
    addend: Pair,
    first: &Approach,
    later: &[&Approach],
) -> Result<(), OutOfMemory>
    requires first { FitsApproach first.now }
    requires later { All (λ a. FitsApproach a.now) later.now }
    requires ceiling { addend.ceiling ≤ 20_000 }
    requires vis { addend.vis ≤ 16_093_440 }
    requires within { AreWithin 40_000 32_186_880 pairs.old.items }
    ensures value { OnOk result (pairs.new.items ≡ pairs.old.items ++ spec.doubles_with addend first.now
        (map (λ a. a.now) later.now)) }
    ensures within { OnOk result (AreWithin 40_000 32_186_880 pairs.new.items) }
{
    for second in later {
        if are_apart(first, second) {
            pairs.push(double(addend, first, second))?;
        }
    }
    Ok(())
}

// Adds the minima of every two approaches to different runways.
fn push_all_doubles(
    pairs: &mut Vec<Pair>,
    addend: Pair,
    usable: &[&Approach],
) -> Result<(), OutOfMemory>
    requires fits { All (λ a. FitsApproach a.now) usable.now }
    requires ceiling { addend.ceiling ≤ 20_000 }
    requires vis { addend.vis ≤ 16_093_440 }
    requires within { AreWithin 40_000 32_186_880 pairs.old.items }
    ensures value { OnOk result (pairs.new.items ≡ pairs.old.items ++ spec.doubles addend
        (map (λ a. a.now) usable.now)) }
    ensures within { OnOk result (AreWithin 40_000 32_186_880 pairs.new.items) }
{
    for (i, first) in usable.iter().enumerate() {
        push_doubles(pairs, addend, first, &usable[i + 1..])?;
    }
    Ok(())
}

fn derived(
    alloc: Global,
    settings: Settings,
    usable: &[&Approach],
) -> Result<Vec<Pair>, OutOfMemory>
    requires settings { FitsSettings settings }
    requires fits { All (λ a. FitsApproach a.now) usable.now }
    ensures value { IfOk result (λ v. v.items ≡ spec.derived settings (map (λ a. a.now) usable.now)) }
    ensures within { IfOk result (λ v. AreWithin 40_000 32_186_880 v.items) }
{
    let mut pairs = singles(alloc, single_addend(settings), usable)?;
    push_all_doubles(&mut pairs, double_addend(settings), usable)?;
    Ok(pairs)
}

fn own_minima(row: &AlternateRow) -> Pair
    requires { FitsAlternate row.now }
    ensures value { result ≡ spec.own_minima row.now }
    ensures within_ceiling { result.ceiling ≤ 20_000 }
    ensures within_vis { result.vis ≤ 16_093_440 }
{
    Pair {
        ceiling: row.ceiling,
        vis: millimetres(row.vis16),
    }
}

#[tactic(auto, using(crate::proofs::RowLaws::alternate_fits))]
fn all_own_minima(alloc: Global, rows: &Group<'_, AlternateRow>) -> Result<Vec<Pair>, OutOfMemory>
    requires { All FitsAlternate rows.now }
    ensures value { IfOk result (λ v. v.items ≡ map (λ r. spec.own_minima r) rows.now) }
    ensures within { IfOk result (λ v. AreWithin 40_000 32_186_880 v.items) }
{
    let mut pairs = Vec::new(alloc);
    for place in 0..rows.len() {
        pairs.push(own_minima(rows.row(place)))?;
    }
    Ok(pairs)
}

#[tactic(auto, unfolding(crate::specs::Minima::alternate_pairs))]
fn own_or_derived(
    alloc: Global,
    tables: &Tables,
    kind: &TypeRow,
    station: Station,
    lost: &Lost,
) -> Result<Pairs, OutOfMemory>
    ensures value { IfOk result (λ pairs. pairs ≡ alternate_pairs tables.now kind.now station lost.now) }
    ensures within { IfOk result (λ pairs. AreWithin 40_000 32_186_880 pairs) }
{
    let own = tables.alternates(station);
    if !own.is_empty() {
        return Ok(Listed::from_vec(all_own_minima(alloc, &own)?));
    }
    let usable = usable(alloc, &tables.approaches(station), kind, lost)?;
    Ok(Listed::from_vec(derived(alloc, tables.settings(), &usable)?))
}

/// Returns the alternate minima of a station (14 CFR 121.625), which are its own if the table has any. Otherwise they
/// come from the approaches that the type can fly. Each approach gives its minima plus the single addend. Then every
/// two approaches to different runways give the higher ceiling and the higher visibility, plus the double addend.
pub fn alternate_pairs(
    alloc: Global,
    tables: &Tables,
    kind: &TypeRow,
    station: Station,
    lost: &Lost,
) -> Result<Pairs, OutOfMemory>
    ensures value { IfOk result (λ pairs. pairs ≡ alternate_pairs tables.now kind.now station lost.now) }
    ensures minima { IfOk result (λ pairs. AreAlternateMinima tables.now kind.now station lost.now pairs) }
    ensures flown { AreFlown tables.now kind.now station lost.now }
    ensures within { IfOk result (λ pairs. AreWithin 40_000 32_186_880 pairs) }
{
    own_or_derived(alloc, tables, kind, station, lost)
}
