ghost use Rattle.std.specs.Prelude.{◌≡◌, ◌++◌, map, IfOk, OnOk};
ghost use Rattle.airport_minima.specs.Minima as minima;
ghost use Rattle.sheet.specs.Circumstances.{case_by};
ghost use Rattle.sheet.specs.Origins as spec;

use crate::circumstances::Circumstances;
use crate::lines::{AlternateOrigin, Origin, Origins};
use desk_io::{Listed, OutOfMemory, Station};
use ops_tables::{AlternateRow, Approach, Group, Lost, TypeRow, has_name};
use std::alloc::Global;

/// An approach that the type can fly, with the number of its row among those of the airport, from 1.
#[derive(Clone, Copy)]
pub(crate) struct FlownApproach<'a> {
    pub row: usize,
    pub approach: &'a Approach,
}

fn can_fly(kind: &TypeRow, lost: &Lost, approach: &Approach) -> bool
    ensures { result ≡ minima.is_usable kind.now lost.now approach.now }
{
    let capability = approach.capability.bytes();
    kind.capabilities.has(capability) && !has_name(lost, capability)
}

fn are_apart(first: &Approach, second: &Approach) -> bool
    ensures { result ≡ minima.are_apart first.now second.now }
{
    second.runway.bytes() != first.runway.bytes()
}

// Returns the approaches that the type can fly, in the order of the group.
fn flown_among<'a>(
    alloc: Global,
    approaches: &Group<'a, Approach>,
    kind: &TypeRow,
    lost: &Lost,
) -> Result<Vec<FlownApproach<'a>>, OutOfMemory>
    ensures { IfOk result (λ v. map spec.seen v.items ≡ spec.flown_from (minima.is_usable kind.now lost.now) 1
        approaches.now) }
{
    let mut flown = Vec::new(alloc);
    for place in 0..approaches.len() {
        let approach = approaches.row(place);
        if can_fly(kind, lost, approach) {
            flown.push(FlownApproach {
                row: place + 1,
                approach,
            })?;
        }
    }
    Ok(flown)
}

// Returns what the landing minima stand for.
fn of_landing(alloc: Global, flown: &[FlownApproach<'_>]) -> Result<Vec<Origin>, OutOfMemory>
    ensures { IfOk result (λ v. v.items ≡ spec.of_landing (map spec.seen flown.now)) }
{
    let mut origins = Vec::new(alloc);
    for it in flown {
        origins.push(Origin::Approach(it.row))?;
    }
    Ok(origins)
}

// Returns what the alternate minima of an airport that has its own stand for.
fn of_rows(
    alloc: Global,
    rows: &Group<'_, AlternateRow>,
) -> Result<Vec<AlternateOrigin>, OutOfMemory>
    ensures { IfOk result (λ v. v.items ≡ spec.of_rows 1 rows.now) }
{
    let mut origins = Vec::new(alloc);
    for place in 0..rows.len() {
        let _row = rows.row(place);
        origins.push(AlternateOrigin::Row(place + 1))?;
    }
    Ok(origins)
}

fn ones(alloc: Global, flown: &[FlownApproach<'_>]) -> Result<Vec<AlternateOrigin>, OutOfMemory>
    ensures { IfOk result (λ v. v.items ≡ spec.ones (map spec.seen flown.now)) }
{
    let mut origins = Vec::new(alloc);
    for it in flown {
        origins.push(AlternateOrigin::One(it.row))?;
    }
    Ok(origins)
}

// Adds an approach with each later one to another runway.
fn push_twos(
    origins: &mut Vec<AlternateOrigin>,
    first: &FlownApproach<'_>,
    later: &[FlownApproach<'_>],
) -> Result<(), OutOfMemory>
    ensures { OnOk result (origins.new.items ≡ origins.old.items ++ spec.twos_with (spec.seen first.now)
        (map spec.seen later.now)) }
{
    for second in later {
        if are_apart(first.approach, second.approach) {
            origins.push(AlternateOrigin::Two {
                first: first.row,
                second: second.row,
            })?;
        }
    }
    Ok(())
}

// Adds every two approaches to different runways.
fn push_all_twos(
    origins: &mut Vec<AlternateOrigin>,
    flown: &[FlownApproach<'_>],
) -> Result<(), OutOfMemory>
    ensures { OnOk result (origins.new.items ≡ origins.old.items ++ spec.twos (map spec.seen flown.now)) }
{
    for (i, first) in flown.iter().enumerate() {
        push_twos(origins, first, &flown[i + 1..])?;
    }
    Ok(())
}

// Returns what the alternate minima of an airport stand for that has no own ones.
fn derived(alloc: Global, flown: &[FlownApproach<'_>]) -> Result<Vec<AlternateOrigin>, OutOfMemory>
    ensures { IfOk result (λ v. v.items ≡ spec.derived (map spec.seen flown.now)) }
{
    let mut origins = ones(alloc, flown)?;
    push_all_twos(&mut origins, flown)?;
    Ok(origins)
}

fn wrapped(alloc: Global, origins: &[AlternateOrigin]) -> Result<Vec<Origin>, OutOfMemory>
    ensures { IfOk result (λ v. v.items ≡ spec.wrapped origins.now) }
{
    let mut all = Vec::new(alloc);
    for it in origins {
        all.push(Origin::Alternate(*it))?;
    }
    Ok(all)
}

// Adds the raise of an approach's minima up to each of the alternate minima in turn.
fn push_each_limit(
    origins: &mut Vec<Origin>,
    approach: usize,
    limits: &[AlternateOrigin],
) -> Result<(), OutOfMemory>
    ensures { OnOk result (origins.new.items ≡ origins.old.items ++ map (spec.raised_to approach) limits.now) }
{
    for limit in limits {
        origins.push(Origin::RaisedTo {
            approach,
            limit: *limit,
        })?;
    }
    Ok(())
}

// Adds the raise of an approach's minima, up to the alternate minima if there are any.
fn push_raised(
    origins: &mut Vec<Origin>,
    approach: usize,
    limits: &[AlternateOrigin],
) -> Result<(), OutOfMemory>
    ensures { OnOk result (origins.new.items ≡ origins.old.items ++ spec.raised_by limits.now approach) }
{
    if !limits.is_empty() {
        return push_each_limit(origins, approach, limits);
    }
    origins.push(Origin::RaisedFreely(approach))?;
    Ok(())
}

// Returns what the raised landing minima stand for.
fn of_raised(
    alloc: Global,
    flown: &[FlownApproach<'_>],
    limits: &[AlternateOrigin],
) -> Result<Vec<Origin>, OutOfMemory>
    ensures { IfOk result (λ v. v.items ≡ spec.of_raised limits.now (map spec.seen flown.now)) }
{
    let mut origins = Vec::new(alloc);
    for it in flown {
        push_raised(&mut origins, it.row, limits)?;
    }
    Ok(origins)
}

impl<'a> Circumstances<'a> {
    // Returns the approaches of a station that the type can fly.
    fn flown(&self, alloc: Global, station: Station) -> Result<Vec<FlownApproach<'a>>, OutOfMemory>
        ensures { IfOk result (λ v. map spec.seen v.items ≡ spec.flown (case_by self.now) station) }
    {
        let tables = self.world.tables;
        flown_among(
            alloc,
            &tables.approaches(station),
            self.aircraft,
            &self.limits.lost,
        )
    }

    // Returns what the alternate minima of a station stand for.
    fn limits_at(
        &self,
        alloc: Global,
        station: Station,
    ) -> Result<Vec<AlternateOrigin>, OutOfMemory>
        ensures { IfOk result (λ v. v.items ≡ spec.alternates (case_by self.now) station) }
    {
        let own = self.world.tables.alternates(station);
        if !own.is_empty() {
            return of_rows(alloc, &own);
        }
        let flown = self.flown(alloc, station)?;
        derived(alloc, &flown)
    }

    /// Returns what the landing minima of a station stand for, in their order.
    pub(crate) fn landing_origins(
        &self,
        alloc: Global,
        station: Station,
    ) -> Result<Origins, OutOfMemory>
        ensures { IfOk result (λ o. o ≡ spec.landing_origins (case_by self.now) station) }
    {
        let flown = self.flown(alloc, station)?;
        Ok(Listed::from_vec(of_landing(alloc, &flown)?))
    }

    /// Returns what the alternate minima of a station stand for, in their order.
    pub(crate) fn alternate_origins(
        &self,
        alloc: Global,
        station: Station,
    ) -> Result<Origins, OutOfMemory>
        ensures { IfOk result (λ o. o ≡ spec.alternate_origins (case_by self.now) station) }
    {
        let limits = self.limits_at(alloc, station)?;
        Ok(Listed::from_vec(wrapped(alloc, &limits)?))
    }

    fn raised_origins(&self, alloc: Global, station: Station) -> Result<Origins, OutOfMemory>
        ensures { IfOk result (λ o. o ≡ spec.raised_origins (case_by self.now) station) }
    {
        let flown = self.flown(alloc, station)?;
        let limits = self.limits_at(alloc, station)?;
        Ok(Listed::from_vec(of_raised(alloc, &flown, &limits)?))
    }

    /// Returns what the landing minima stand for that hold for the captain, in their order.
    pub(crate) fn arrival_origins(
        &self,
        alloc: Global,
        station: Station,
    ) -> Result<Origins, OutOfMemory>
        ensures { IfOk result (λ o. o ≡ spec.arrival_origins (case_by self.now) station) }
    {
        if self.hours < 100 {
            self.raised_origins(alloc, station)
        } else {
            self.landing_origins(alloc, station)
        }
    }
}
