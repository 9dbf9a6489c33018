ghost use Rattle.std.specs.Prelude.{◌≡◌, ◌≤◌, ◌&&◌, IfSome, find};
ghost use Rattle.std.specs.List.{list_any};
ghost use Rattle.std.specs.Option.{option_copied, option_map};
ghost use Rattle.std.specs.Str.{bytes_eq};
ghost use Rattle.ops_tables.specs.Limits.{FitsAirport, FitsType, FitsItem, FitsActor, FitsHours};
ghost use Rattle.ops_tables.specs.Tables.{is_station, is_pair, is_captain, hours_by};

use crate::grouped::{Grouped, found, has};
use crate::{
    Actor, Airport, CaptainHours, Distance, ItemPair, MelRow, Role, Route, Tail, TypeRow, Use,
};
use desk_io::Station;

/// Returns the airport of this station.
pub(crate) fn airport_in(rows: &Grouped<Airport, 48>, s: Station) -> Option<&Airport>
    ensures value { option_copied result ≡ find (λ a. is_station a.station s) rows.now }
    ensures within { IfSome result (λ a. FitsAirport a.now) }
{
    found(rows, &s.bytes(), b"", b"")
}

/// Returns the type of this name.
pub(crate) fn type_in<'a>(rows: &'a Grouped<TypeRow, 48>, kind: &[u8]) -> Option<&'a TypeRow>
    ensures value { option_copied result ≡ find (λ r. bytes_eq r.kind kind.now) rows.now }
    ensures within { IfSome result (λ r. FitsType r.now) }
{
    found(rows, kind, b"", b"")
}

/// Returns the aircraft of this registration.
pub(crate) fn tail_in<'a>(rows: &'a Grouped<Tail, 48>, tail: &[u8]) -> Option<&'a Tail>
    ensures { option_copied result ≡ find (λ r. bytes_eq r.tail tail.now) rows.now }
{
    found(rows, tail, b"", b"")
}

/// Returns true if the type may use the airport.
pub(crate) fn is_used_in(rows: &Grouped<Use, 48>, kind: &[u8], s: Station) -> bool
    ensures { result ≡ list_any (λ u. bytes_eq u.kind kind.now && is_station u.station s) rows.now }
{
    has(rows, kind, &s.bytes(), b"")
}

/// Returns the distance from one airport to another, in nautical miles.
pub(crate) fn miles_in(rows: &Grouped<Distance, 48>, from: Station, to: Station) -> Option<u32>
    ensures value { result ≡ option_map (λ d. d.miles) (find (λ d. is_station d.from from && is_station d.to to)
        rows.now) }
    ensures within { IfSome result (λ miles. miles ≤ 20_000) }
{
    let row = found(rows, &from.bytes(), &to.bytes(), b"")?;
    Some(row.miles)
}

/// Returns true if the table has this route.
pub(crate) fn is_route_in(rows: &Grouped<Route, 48>, from: Station, to: Station) -> bool
    ensures { result ≡ list_any (λ r. is_station r.from from && is_station r.to to) rows.now }
{
    has(rows, &from.bytes(), &to.bytes(), b"")
}

/// Returns an item of a type's minimum equipment list.
pub(crate) fn item_in<'a>(
    rows: &'a Grouped<MelRow, 48>,
    kind: &[u8],
    item: &[u8],
) -> Option<&'a MelRow>
    ensures value { option_copied result ≡ find (λ r. bytes_eq r.kind kind.now && bytes_eq r.item item.now) rows.now }
    ensures within { IfSome result (λ r. FitsItem r.now) }
{
    found(rows, kind, item, b"")
}

/// Returns true if the table has this pair in this order.
pub(crate) fn is_paired_in(
    rows: &Grouped<ItemPair, 48>,
    kind: &[u8],
    item: &[u8],
    other: &[u8],
) -> bool
    ensures { result ≡ list_any (λ p. is_pair p kind.now item.now other.now) rows.now }
{
    has(rows, kind, item, other)
}

/// Returns the person of this name.
pub(crate) fn actor_in<'a>(rows: &'a Grouped<Actor, 48>, name: &[u8]) -> Option<&'a Actor>
    ensures value { option_copied result ≡ find (λ a. bytes_eq a.name name.now) rows.now }
    ensures within { IfSome result (λ a. FitsActor a.now) }
{
    found(rows, name, b"", b"")
}

/// Returns true if this person has role C, so that he may be the pilot in command.
pub(crate) fn captain_in(rows: &Grouped<Actor, 48>, name: &[u8]) -> bool
    ensures { result ≡ is_captain (find (λ a. bytes_eq a.name name.now) rows.now) }
{
    match actor_in(rows, name) {
        None => false,
        Some(actor) => match actor.role() {
            Role::C => true,
            Role::D | Role::F | Role::M | Role::S => false,
        },
    }
}

fn hours_row_in<'a>(
    rows: &'a Grouped<CaptainHours, 48>,
    captain: &[u8],
    kind: &[u8],
) -> Option<&'a CaptainHours>
    ensures value { option_copied result
        ≡ find (λ h. bytes_eq h.captain captain.now && bytes_eq h.kind kind.now) rows.now }
    ensures within { IfSome result (λ h. FitsHours h.now) }
{
    found(rows, captain, kind, b"")
}

/// Returns the hours of a captain in a type; 0 if there is no row.
pub(crate) fn hours_in(rows: &Grouped<CaptainHours, 48>, captain: &[u8], kind: &[u8]) -> u32
    ensures value { result
        ≡ hours_by (find (λ h. bytes_eq h.captain captain.now && bytes_eq h.kind kind.now) rows.now) }
    ensures within { result ≤ 100_000 }
{
    match hours_row_in(rows, captain, kind) {
        None => 0,
        Some(row) => row.hours(),
    }
}
