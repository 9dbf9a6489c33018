ghost use Rattle.std.specs.Prelude.{◌≡◌, IfOk};
ghost use Rattle.sheet_text.specs.Text as spec;

use crate::text::{joined, with_unit};
use desk_io::{OutOfMemory, Text};
use plan::{Basis, PlanWhy};
use sheet::{FuelSum, OnBoard, TablesFault};
use std::alloc::Global;

// Writes a word and an amount of fuel.
fn pounds(alloc: Global, word: &[u8], n: u64) -> Result<Text, OutOfMemory>
    ensures { IfOk result (λ t. t ≡ spec.pounds word.now n) }
{
    let amount = with_unit(alloc, n, b" lb")?;
    joined(alloc, &[word, amount.bytes()])
}

fn stated_text(alloc: Global, sum: &FuelSum) -> Result<Text, OutOfMemory>
    ensures { IfOk result (λ t. t ≡ spec.stated_text sum.now) }
{
    let stated = pounds(alloc, b"stated ", u64::from(sum.stated))?;
    let required = pounds(alloc, b", required ", sum.required)?;
    joined(alloc, &[stated.bytes(), required.bytes()])
}

fn burn_text(alloc: Global, sum: &FuelSum) -> Result<Text, OutOfMemory>
    ensures { IfOk result (λ t. t ≡ spec.burn_text sum.now) }
{
    let burn = pounds(alloc, b" = burn ", u64::from(sum.burn))?;
    let extra = pounds(alloc, b" + extra ", u64::from(sum.extra))?;
    joined(alloc, &[burn.bytes(), extra.bytes()])
}

// Writes a tenth of the time in the air, where it counts.
fn tenth_of(alloc: Global, basis: Basis, n: u64) -> Result<Text, OutOfMemory>
    ensures { IfOk result (λ t. t ≡ spec.tenth_of basis n) }
{
    match basis {
        Basis::Domestic => Text::of(alloc, b""),
        Basis::Flag => pounds(alloc, b" + tenth ", n),
        Basis::NoAlternate => Text::of(alloc, b""),
    }
}

fn tenth_text(alloc: Global, sum: &FuelSum) -> Result<Text, OutOfMemory>
    ensures { IfOk result (λ t. t ≡ spec.tenth_text sum.now) }
{
    let tenth = tenth_of(alloc, sum.basis, sum.tenth)?;
    let alternate = pounds(alloc, b" + alternate ", u64::from(sum.alternate))?;
    joined(alloc, &[tenth.bytes(), alternate.bytes()])
}

// Says what the reserve is.
fn basis_text(basis: Basis) -> &'static [u8]
    ensures { result.now ≡ spec.basis_text basis }
{
    match basis {
        Basis::Domestic => b" (45 minutes at cruise_pph)",
        Basis::Flag => b" (30 minutes at hold_pph)",
        Basis::NoAlternate => b" (2 hours at cruise_pph)",
    }
}

fn reserve_text(alloc: Global, sum: &FuelSum) -> Result<Text, OutOfMemory>
    ensures { IfOk result (λ t. t ≡ spec.reserve_text sum.now) }
{
    let reserve = pounds(alloc, b" + reserve ", sum.reserve)?;
    let basis = basis_text(sum.basis);
    let deferrals = pounds(alloc, b" + deferrals ", sum.deferred)?;
    joined(alloc, &[reserve.bytes(), basis, deferrals.bytes()])
}

pub(crate) fn fuel_text(alloc: Global, sum: &FuelSum) -> Result<Text, OutOfMemory>
    ensures { IfOk result (λ t. t ≡ spec.fuel_text sum.now) }
{
    let stated = stated_text(alloc, sum)?;
    let burn = burn_text(alloc, sum)?;
    let tenth = tenth_text(alloc, sum)?;
    let reserve = reserve_text(alloc, sum)?;
    joined(
        alloc,
        &[stated.bytes(), burn.bytes(), tenth.bytes(), reserve.bytes()],
    )
}

pub(crate) fn board_text(alloc: Global, fuel: &OnBoard) -> Result<Text, OutOfMemory>
    ensures { IfOk result (λ t. t ≡ spec.board_text fuel.now) }
{
    let onboard = pounds(alloc, b"on board ", u64::from(fuel.onboard))?;
    let minimum = pounds(alloc, b", minimum ", u64::from(fuel.minimum))?;
    joined(alloc, &[onboard.bytes(), minimum.bytes()])
}

// Names a fault of a plan, and says what it is.
fn why_text(why: PlanWhy) -> &'static [u8]
    ensures { result.now ≡ spec.why_text why }
{
    match why {
        PlanWhy::UnknownTail => b"UnknownTail: tails.csv has no such aircraft",
        PlanWhy::UnknownCaptain => b"UnknownCaptain: actors.csv has no such actor with role C",
        PlanWhy::Count => b"Count: no legs, or more than 8, or more than 3 alternates",
        PlanWhy::NoAirport => b"NoAirport: a station isn't in airports.csv",
        PlanWhy::Repeated => b"Repeated: a station is where another one is required",
        PlanWhy::Unjoined => b"Unjoined: the leg doesn't begin where the one before ended",
        PlanWhy::Times =>
            b"Times: a moment, its order or a number of minutes is outside the limits",
        PlanWhy::Amount => b"Amount: an amount of fuel is above 1000000 lb",
        PlanWhy::Changed =>
            b"Changed: the amendment changes the flight, the kind, or in flight the aircraft",
        PlanWhy::Flown =>
            b"Flown: the amendment changes or omits what was flown, or leaves no leg to fly",
    }
}

fn fault_text(fault: Option<TablesFault>) -> &'static [u8]
    ensures { result.now ≡ spec.fault_text fault }
{
    match fault {
        None => b"fits the tables",
        Some(TablesFault::NoType) => b"the aircraft has no type",
        Some(TablesFault::Plan(why)) => why_text(why),
    }
}

pub(crate) fn tables_text(alloc: Global, fault: Option<TablesFault>) -> Result<Text, OutOfMemory>
    ensures { IfOk result (λ t. t ≡ spec.fault_text fault) }
{
    Text::of(alloc, fault_text(fault))
}
