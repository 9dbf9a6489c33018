ghost use Rattle.std.specs.Prelude.{◌≡◌, ◌≤◌, IfOk, IfSome, IsTrue, length};
ghost use Rattle.table_files.specs.Records as spec;
ghost use Rattle.table_files.specs.Fields.{number_within};
ghost use Rattle.ops_tables.specs.Forms as form;
ghost use Rattle.ops_tables.specs.Limits.{FitsAirport, FitsApproach, FitsAlternate, FitsType, FitsTail, FitsUse, FitsDistance, FitsItem, FitsPair, FitsActor, FitsHours};

use crate::fields::{
    capabilities, category_of, is_item, is_key, is_name, is_name_or_none, is_person, is_tail,
    mark_of, number_within, role_of,
};
use desk_io::{OutOfMemory, Station, Text};
use ops_tables::{
    Actor, Airport, AlternateRow, Approach, CaptainHours, Category, Distance, ItemPair, MelRow,
    Route, ShortText, Tail, TypeRow, Use,
};
use std::alloc::Global;

/// Reads a row of `airports.csv`.
pub(crate) fn airport_row(fields: &[Text]) -> Option<Airport>
    ensures value { result ≡ spec.airport_row fields.now }
    ensures fits { IfSome result FitsAirport }
{
    let [station, conus, circle] = fields else {
        return None;
    };
    Some(Airport {
        station: Station::read(station.bytes())?,
        conus: mark_of(conus.bytes())?,
        circle: number_within(0, 20_000, circle.bytes())?,
    })
}

/// The columns of an approach other than names.
#[derive(Clone, Copy, Debug)]
struct ApproachTerms {
    station: Station,
    height: u32,
    ceiling: u32,
    vis16: u32,
}

#[tactic(auto, unfolding(crate::specs::Records::approach_terms))]
fn approach_terms(
    station: &Text,
    height: &Text,
    ceiling: &Text,
    vis16: &Text,
) -> Option<ApproachTerms>
    ensures value { result ≡ spec.approach_terms station.now height.now ceiling.now vis16.now }
    ensures bound { IfSome result (λ t. (t.height ≤ 20_000) × (t.ceiling ≤ 20_000) × (t.vis16 ≤ 160)) }
{
    Some(ApproachTerms {
        station: Station::read(station.bytes())?,
        height: number_within(0, 20_000, height.bytes())?,
        ceiling: number_within(0, 20_000, ceiling.bytes())?,
        vis16: number_within(0, 160, vis16.bytes())?,
    })
}

#[tactic(auto, unfolding(ops_tables::specs::Forms::are_names))]
fn are_names(a: &Text, b: &Text, c: &Text) -> bool
    ensures value { result ≡ form.are_names a.now b.now c.now }
    ensures short { IsTrue result → (length a.now ≤ 8) × (length b.now ≤ 8) × (length c.now ≤ 8) }
{
    is_name(a.bytes()) && is_name(b.bytes()) && is_name(c.bytes())
}

fn named_approach(terms: ApproachTerms, name: &Text, runway: &Text, capability: &Text) -> Approach
    requires { (length name.now ≤ 8) × (length runway.now ≤ 8) × (length capability.now ≤ 8) }
    ensures { result ≡ record {
      station = terms.station;
      name = name.now;
      runway = runway.now;
      capability = capability.now;
      height = terms.height;
      ceiling = terms.ceiling;
      vis16 = terms.vis16;
    } }
{
    Approach {
        station: terms.station,
        name: ShortText::of(name.bytes()),
        runway: ShortText::of(runway.bytes()),
        capability: ShortText::of(capability.bytes()),
        height: terms.height,
        ceiling: terms.ceiling,
        vis16: terms.vis16,
    }
}

/// Reads a row of `approaches.csv`.
pub(crate) fn approach_row(fields: &[Text]) -> Option<Approach>
    ensures value { result ≡ spec.approach_row fields.now }
    ensures fits { IfSome result FitsApproach }
{
    let [station, name, runway, capability, height, ceiling, vis16] = fields else {
        return None;
    };
    if !are_names(name, runway, capability) {
        return None;
    }
    let terms = approach_terms(station, height, ceiling, vis16)?;
    Some(named_approach(terms, name, runway, capability))
}

/// Reads a row of `alternates.csv`.
pub(crate) fn alternate_row(fields: &[Text]) -> Option<AlternateRow>
    ensures value { result ≡ spec.alternate_row fields.now }
    ensures fits { IfSome result FitsAlternate }
{
    let [station, ceiling, vis16] = fields else {
        return None;
    };
    Some(AlternateRow {
        station: Station::read(station.bytes())?,
        ceiling: number_within(0, 20_000, ceiling.bytes())?,
        vis16: number_within(0, 160, vis16.bytes())?,
    })
}

fn engines_of(field: &[u8]) -> Option<u8>
    ensures value { result ≡ number_within 2 4 field.now }
    ensures bound { IfSome result (λ n. (2 ≤ n) × (n ≤ 4)) }
{
    let count = number_within(2, 4, field)?;
    Some(count as u8)
}

/// The numbers of a type's row.
#[derive(Clone, Copy, Debug)]
struct TypeTerms {
    engines: u8,
    oei_knots: u32,
    cruise_pph: u32,
    hold_pph: u32,
}

#[tactic(auto, unfolding(crate::specs::Records::type_terms))]
fn type_terms(
    engines: &[u8],
    oei_knots: &[u8],
    cruise_pph: &[u8],
    hold_pph: &[u8],
) -> Option<TypeTerms>
    ensures value { result ≡ spec.type_terms engines.now oei_knots.now cruise_pph.now hold_pph.now }
    ensures least { IfSome result (λ t. (2 ≤ t.engines) × (1 ≤ t.oei_knots) × (1 ≤ t.cruise_pph) × (1 ≤ t.hold_pph)) }
    ensures bound { IfSome result (λ t. (t.engines ≤ 4) × (t.oei_knots ≤ 1_000) × (t.cruise_pph ≤ 100_000)
        × (t.hold_pph ≤ 100_000)) }
{
    Some(TypeTerms {
        engines: engines_of(engines)?,
        oei_knots: number_within(1, 1_000, oei_knots)?,
        cruise_pph: number_within(1, 100_000, cruise_pph)?,
        hold_pph: number_within(1, 100_000, hold_pph)?,
    })
}

/// Reads a row of `types.csv`.
pub(crate) fn type_row(alloc: Global, fields: &[Text]) -> Result<Option<TypeRow>, OutOfMemory>
    ensures value { IfOk result (λ row. row ≡ spec.type_row fields.now) }
    ensures fits { IfOk result (λ row. IfSome row FitsType) }
{
    let [kind, engines, oei_knots, cruise_pph, hold_pph, names] = fields else {
        return Ok(None);
    };
    if !is_name(kind.bytes()) {
        return Ok(None);
    }
    let terms = type_terms(
        engines.bytes(),
        oei_knots.bytes(),
        cruise_pph.bytes(),
        hold_pph.bytes(),
    );
    let Some(terms) = terms else {
        return Ok(None);
    };
    let Some(capabilities) = capabilities(alloc, names.bytes())? else {
        return Ok(None);
    };
    Ok(Some(TypeRow {
        kind: ShortText::of(kind.bytes()),
        engines: terms.engines,
        oei_knots: terms.oei_knots,
        cruise_pph: terms.cruise_pph,
        hold_pph: terms.hold_pph,
        capabilities,
    }))
}

/// Reads a row of `tails.csv`.
pub(crate) fn tail_row(fields: &[Text]) -> Option<Tail>
    ensures value { result ≡ spec.tail_row fields.now }
    ensures fits { IfSome result FitsTail }
{
    let [tail, kind] = fields else {
        return None;
    };
    if !(is_tail(tail.bytes()) && is_name(kind.bytes())) {
        return None;
    }
    Some(Tail {
        tail: ShortText::of(tail.bytes()),
        kind: ShortText::of(kind.bytes()),
    })
}

/// Reads a row of `uses.csv`.
pub(crate) fn use_row(fields: &[Text]) -> Option<Use>
    ensures value { result ≡ spec.use_row fields.now }
    ensures fits { IfSome result FitsUse }
{
    let [kind, station] = fields else {
        return None;
    };
    if !is_name(kind.bytes()) {
        return None;
    }
    let station = Station::read(station.bytes())?;
    Some(Use {
        kind: ShortText::of(kind.bytes()),
        station,
    })
}

/// Reads a row of `distances.csv`.
pub(crate) fn distance_row(fields: &[Text]) -> Option<Distance>
    ensures value { result ≡ spec.distance_row fields.now }
    ensures fits { IfSome result FitsDistance }
{
    let [from, to, miles] = fields else {
        return None;
    };
    Some(Distance {
        from: Station::read(from.bytes())?,
        to: Station::read(to.bytes())?,
        miles: number_within(0, 20_000, miles.bytes())?,
    })
}

/// Reads a row of `routes.csv`.
pub(crate) fn route_row(fields: &[Text]) -> Option<Route>
    ensures { result ≡ spec.route_row fields.now }
{
    let [from, to] = fields else {
        return None;
    };
    Some(Route {
        from: Station::read(from.bytes())?,
        to: Station::read(to.bytes())?,
    })
}

#[tactic(auto, unfolding(ops_tables::specs::Forms::are_item_names))]
fn are_item_names(kind: &[u8], item: &[u8], capability: &[u8]) -> bool
    ensures value { result ≡ form.are_item_names kind.now item.now capability.now }
    ensures short { IsTrue result → (length kind.now ≤ 8) × (length item.now ≤ 16) × (length capability.now ≤ 8) }
{
    is_name(kind) && is_item(item) && is_name_or_none(capability)
}

/// The columns of an item other than names.
#[derive(Clone, Copy, Debug)]
struct ItemTerms {
    category: Category,
    days: u32,
    extra_fuel: u32,
    flag_ok: bool,
    max_minutes: u32,
}

#[tactic(auto, unfolding(crate::specs::Records::item_terms))]
fn item_terms(
    category: &[u8],
    days: &[u8],
    extra_fuel: &[u8],
    flag_ok: &[u8],
    max_minutes: &[u8],
) -> Option<ItemTerms>
    ensures value { result ≡ spec.item_terms category.now days.now extra_fuel.now flag_ok.now max_minutes.now }
    ensures bound { IfSome result (λ t. (t.days ≤ 365) × (t.extra_fuel ≤ 100_000) × (t.max_minutes ≤ 1_440)) }
{
    Some(ItemTerms {
        category: category_of(category)?,
        days: number_within(0, 365, days)?,
        extra_fuel: number_within(0, 100_000, extra_fuel)?,
        flag_ok: mark_of(flag_ok)?,
        max_minutes: number_within(0, 1_440, max_minutes)?,
    })
}

/// Reads a row of `mel.csv`.
pub(crate) fn item_row(fields: &[Text]) -> Option<MelRow>
    ensures value { result ≡ spec.item_row fields.now }
    ensures fits { IfSome result FitsItem }
{
    let [
        kind,
        item,
        category,
        days,
        capability,
        extra_fuel,
        flag_ok,
        max_minutes,
    ] = fields
    else {
        return None;
    };
    if !are_item_names(kind.bytes(), item.bytes(), capability.bytes()) {
        return None;
    }
    let terms = item_terms(
        category.bytes(),
        days.bytes(),
        extra_fuel.bytes(),
        flag_ok.bytes(),
        max_minutes.bytes(),
    )?;
    Some(MelRow {
        kind: ShortText::of(kind.bytes()),
        item: ShortText::of(item.bytes()),
        category: terms.category,
        days: terms.days,
        capability: ShortText::of(capability.bytes()),
        extra_fuel: terms.extra_fuel,
        flag_ok: terms.flag_ok,
        max_minutes: terms.max_minutes,
    })
}

#[tactic(auto, unfolding(ops_tables::specs::Forms::are_two_items))]
fn are_two_items(kind: &[u8], item: &[u8], other: &[u8]) -> bool
    ensures value { result ≡ form.are_two_items kind.now item.now other.now }
    ensures short { IsTrue result → (length kind.now ≤ 8) × (length item.now ≤ 16) × (length other.now ≤ 16) }
{
    is_name(kind) && is_item(item) && is_item(other) && item != other
}

/// Reads a row of `pairs.csv`.
pub(crate) fn pair_row(alloc: Global, fields: &[Text]) -> Result<Option<ItemPair>, OutOfMemory>
    ensures value { IfOk result (λ row. row ≡ spec.pair_row fields.now) }
    ensures fits { IfOk result (λ row. IfSome row FitsPair) }
{
    let [kind, item, other] = fields else {
        return Ok(None);
    };
    if !are_two_items(kind.bytes(), item.bytes(), other.bytes()) {
        return Ok(None);
    }
    let pair = ItemPair::of(alloc, kind.bytes(), item.bytes(), other.bytes())?;
    Ok(Some(pair))
}

/// Reads a row of `actors.csv`.
pub(crate) fn actor_row(alloc: Global, fields: &[Text]) -> Result<Option<Actor>, OutOfMemory>
    ensures value { IfOk result (λ row. row ≡ spec.actor_row fields.now) }
    ensures fits { IfOk result (λ row. IfSome row FitsActor) }
{
    let [name, key, role] = fields else {
        return Ok(None);
    };
    if !(is_person(name.bytes()) && is_key(key.bytes())) {
        return Ok(None);
    }
    match role_of(role.bytes()) {
        None => Ok(None),
        Some(role) => Ok(Some(Actor::of(alloc, name.bytes(), key.bytes(), role)?)),
    }
}

/// Reads a row of `hours.csv`.
pub(crate) fn hours_row(alloc: Global, fields: &[Text]) -> Result<Option<CaptainHours>, OutOfMemory>
    ensures value { IfOk result (λ row. row ≡ spec.hours_row fields.now) }
    ensures fits { IfOk result (λ row. IfSome row FitsHours) }
{
    let [captain, kind, hours] = fields else {
        return Ok(None);
    };
    if !(is_person(captain.bytes()) && is_name(kind.bytes())) {
        return Ok(None);
    }
    match number_within(0, 100_000, hours.bytes()) {
        None => Ok(None),
        Some(hours) => {
            let row = CaptainHours::of(alloc, captain.bytes(), kind.bytes(), hours)?;
            Ok(Some(row))
        }
    }
}
