ghost use Rattle.std.specs.Prelude.{◌≡◌, ◌∷◌, ◌++◌, [], map, decimal, IfOk, OnOk};
ghost use Rattle.std.specs.List.{concat};
ghost use Rattle.sheet_text.specs.Text as spec;

use crate::amounts::{board_text, fuel_text, tables_text};
use crate::minima::minima_text;
use desk_io::{OutOfMemory, Pair, Station, Text, push_all};
use desk_time::{FIRST, Minute, SHOWN_LAST, show};
use plan::finding_text;
use sheet::{
    AirportUse, Allowance, AlternateNeed, Compared, Departure, Elapsed, ItemLimit, Line, Miss,
    Range, Repair, Second, Source, WeatherAt,
};
use std::alloc::Global;

/// A sixteenth of a statute mile in millimetres.
const SIXTEENTH: u32 = 100_584;

// Joins the pieces in order.
pub(crate) fn joined(alloc: Global, pieces: &[&[u8]]) -> Result<Text, OutOfMemory>
    ensures { IfOk result (λ t. t ≡ concat (map (λ x. x.now) pieces.now)) }
{
    let mut out = Vec::new(alloc);
    push_all(&mut out, pieces)?;
    Ok(Text::from_vec(out))
}

pub(crate) fn number(alloc: Global, n: u64) -> Result<Text, OutOfMemory>
    ensures { IfOk result (λ t. t ≡ decimal n) }
{
    let digits = n.to_string(alloc)?;
    Text::of(alloc, digits.as_bytes())
}

pub(crate) fn moment_text(alloc: Global, at: Minute) -> Result<Text, OutOfMemory>
    ensures { IfOk result (λ t. t ≡ spec.moment_text at) }
{
    if FIRST <= at && at <= SHOWN_LAST {
        Text::of(alloc, &show(at))
    } else {
        number(alloc, at)
    }
}

// Writes a number and its unit.
pub(crate) fn with_unit(alloc: Global, n: u64, unit: &[u8]) -> Result<Text, OutOfMemory>
    ensures { IfOk result (λ t. t ≡ spec.with_unit n unit.now) }
{
    let digits = number(alloc, n)?;
    joined(alloc, &[digits.bytes(), unit])
}

// Writes a number and its unit, or that it is unknown.
fn known_text(alloc: Global, n: Option<u32>, unit: &[u8]) -> Result<Text, OutOfMemory>
    ensures { IfOk result (λ t. t ≡ spec.known_text n unit.now) }
{
    match n {
        None => Text::of(alloc, b"unknown"),
        Some(n) => with_unit(alloc, u64::from(n), unit),
    }
}

fn number_text(alloc: Global, n: Option<u64>) -> Result<Text, OutOfMemory>
    ensures { IfOk result (λ t. t ≡ spec.number_text n) }
{
    match n {
        None => Text::of(alloc, b"none"),
        Some(n) => number(alloc, n),
    }
}

fn sixteenths_text(alloc: Global, vis: u32) -> Result<Text, OutOfMemory>
    ensures { IfOk result (λ t. t ≡ spec.sixteenths_text vis) }
{
    with_unit(alloc, u64::from(vis / SIXTEENTH), b"/16 SM")
}

fn miles_text(alloc: Global, vis: Option<u32>) -> Result<Text, OutOfMemory>
    ensures { IfOk result (λ t. t ≡ spec.miles_text vis) }
{
    match vis {
        None => Text::of(alloc, b"unknown"),
        Some(vis) => sixteenths_text(alloc, vis),
    }
}

fn part_text(alloc: Global, part: Option<usize>) -> Result<Text, OutOfMemory>
    ensures { IfOk result (λ t. t ≡ spec.part_text part) }
{
    match part {
        None => Text::of(alloc, b""),
        Some(part) => {
            let part = number(alloc, part as u64)?;
            joined(alloc, &[b" part ", part.bytes()])
        }
    }
}

fn source_text(alloc: Global, source: Option<Source>) -> Result<Text, OutOfMemory>
    ensures { IfOk result (λ t. t ≡ spec.source_text source) }
{
    match source {
        None => Text::of(alloc, b""),
        Some(source) => {
            let report = number(alloc, source.report)?;
            let part = part_text(alloc, source.part)?;
            joined(alloc, &[b" (report ", report.bytes(), part.bytes(), b")"])
        }
    }
}

// Writes feet, and sixteenths of a statute mile.
pub(crate) fn pair_text(alloc: Global, pair: Pair) -> Result<Text, OutOfMemory>
    ensures { IfOk result (λ t. t ≡ spec.pair_text pair) }
{
    let feet = with_unit(alloc, u64::from(pair.ceiling), b" ft ")?;
    let miles = sixteenths_text(alloc, pair.vis)?;
    joined(alloc, &[b" ", feet.bytes(), miles.bytes()])
}

fn yes_or_no(answer: bool) -> &'static [u8]
    ensures { result.now ≡ spec.yes_or_no answer }
{
    if answer { b"yes" } else { b"no" }
}

fn station_text(alloc: Global, station: Option<Station>) -> Result<Text, OutOfMemory>
    ensures { IfOk result (λ t. t ≡ spec.station_text station) }
{
    match station {
        None => Text::of(alloc, b"none"),
        Some(station) => Text::of(alloc, &station.bytes()),
    }
}

// Writes the minutes that have passed, since when, and until which moment.
fn span_text(alloc: Global, elapsed: &Elapsed) -> Result<Text, OutOfMemory>
    ensures { IfOk result (λ t. t ≡ spec.span_text elapsed.now) }
{
    let minutes = number(alloc, elapsed.minutes)?;
    let since = moment_text(alloc, elapsed.since)?;
    let moment = moment_text(alloc, elapsed.moment)?;
    joined(
        alloc,
        &[
            minutes.bytes(),
            b" min since ",
            since.bytes(),
            b" until ",
            moment.bytes(),
        ],
    )
}

// Writes the moment of the sheet, and a later one from which minutes will count.
fn waiting_text(alloc: Global, elapsed: &Elapsed) -> Result<Text, OutOfMemory>
    ensures { IfOk result (λ t. t ≡ spec.waiting_text elapsed.now) }
{
    let moment = moment_text(alloc, elapsed.moment)?;
    let since = moment_text(alloc, elapsed.since)?;
    joined(
        alloc,
        &[
            b"not begun at ",
            moment.bytes(),
            b", counts from ",
            since.bytes(),
        ],
    )
}

#[tactic(auto, unfolding(crate::specs::Text::passed_text))]
fn passed_text(alloc: Global, elapsed: &Elapsed) -> Result<Text, OutOfMemory>
    ensures { IfOk result (λ t. t ≡ spec.passed_text elapsed.now) }
{
    if elapsed.since <= elapsed.moment {
        span_text(alloc, elapsed)
    } else {
        waiting_text(alloc, elapsed)
    }
}

fn time_text(alloc: Global, elapsed: &Elapsed) -> Result<Text, OutOfMemory>
    ensures { IfOk result (λ t. t ≡ spec.time_text elapsed.now) }
{
    let passed = passed_text(alloc, elapsed)?;
    let allowed = with_unit(alloc, u64::from(elapsed.allowed), b" min")?;
    joined(alloc, &[passed.bytes(), b", allowed ", allowed.bytes()])
}

fn place_text(alloc: Global, there: &WeatherAt) -> Result<Text, OutOfMemory>
    ensures { IfOk result (λ t. t ≡ spec.place_text there.now) }
{
    let station = there.station.bytes();
    let minute = moment_text(alloc, there.minute)?;
    joined(alloc, &[&station, b" ", minute.bytes()])
}

fn ceiling_text(alloc: Global, there: &WeatherAt) -> Result<Text, OutOfMemory>
    ensures { IfOk result (λ t. t ≡ spec.ceiling_text there.now) }
{
    let feet = known_text(alloc, there.weather.ceiling, b" ft")?;
    let source = source_text(alloc, there.ceiling_from)?;
    joined(alloc, &[b" ceiling ", feet.bytes(), source.bytes()])
}

fn visibility_text(alloc: Global, there: &WeatherAt) -> Result<Text, OutOfMemory>
    ensures { IfOk result (λ t. t ≡ spec.visibility_text there.now) }
{
    let miles = miles_text(alloc, there.weather.vis)?;
    let source = source_text(alloc, there.vis_from)?;
    joined(alloc, &[b" visibility ", miles.bytes(), source.bytes()])
}

fn weather_text(alloc: Global, there: &WeatherAt) -> Result<Text, OutOfMemory>
    ensures { IfOk result (λ t. t ≡ spec.weather_text there.now) }
{
    let place = place_text(alloc, there)?;
    let ceiling = ceiling_text(alloc, there)?;
    let visibility = visibility_text(alloc, there)?;
    let minima = minima_text(alloc, there.minima.as_slice(), there.origins.as_slice())?;
    joined(
        alloc,
        &[
            place.bytes(),
            ceiling.bytes(),
            visibility.bytes(),
            b", minima",
            minima.bytes(),
        ],
    )
}

// Writes sixteenths of a statute mile, rounded up.
fn lacking_text(alloc: Global, vis: u32) -> Result<Text, OutOfMemory>
    ensures { IfOk result (λ t. t ≡ spec.lacking_text vis) }
{
    with_unit(alloc, u64::from(vis.div_ceil(SIXTEENTH)), b"/16 SM")
}

fn met_text(alloc: Global, miss: Miss) -> Result<Text, OutOfMemory>
    ensures { IfOk result (λ t. t ≡ spec.met_text miss) }
{
    let met = number(alloc, miss.number as u64)?;
    joined(alloc, &[b", meets ", met.bytes()])
}

fn missed_text(alloc: Global, miss: Miss) -> Result<Text, OutOfMemory>
    ensures { IfOk result (λ t. t ≡ spec.missed_text miss) }
{
    let missed = number(alloc, miss.number as u64)?;
    let feet = with_unit(alloc, u64::from(miss.ceiling), b" ft ")?;
    let miles = lacking_text(alloc, miss.vis)?;
    joined(
        alloc,
        &[
            b", misses ",
            missed.bytes(),
            b" by ",
            feet.bytes(),
            miles.bytes(),
        ],
    )
}

fn nearest_text(alloc: Global, nearest: Option<Miss>) -> Result<Text, OutOfMemory>
    ensures { IfOk result (λ t. t ≡ spec.nearest_text nearest) }
{
    match nearest {
        None => Text::of(alloc, b""),
        Some(miss) => {
            if miss.ceiling == 0 && miss.vis == 0 {
                met_text(alloc, miss)
            } else {
                missed_text(alloc, miss)
            }
        }
    }
}

// Writes the weather, the minima, and which of them is met or nearest.
fn judged_text(alloc: Global, there: &WeatherAt) -> Result<Text, OutOfMemory>
    ensures { IfOk result (λ t. t ≡ spec.judged_text there.now) }
{
    let weather = weather_text(alloc, there)?;
    let nearest = nearest_text(alloc, there.nearest())?;
    joined(alloc, &[weather.bytes(), nearest.bytes()])
}

fn departure_text(alloc: Global, departure: &Departure) -> Result<Text, OutOfMemory>
    ensures { IfOk result (λ t. t ≡ spec.departure_text departure.now) }
{
    let there = judged_text(alloc, &departure.there)?;
    let listed = station_text(alloc, departure.listed)?;
    joined(
        alloc,
        &[there.bytes(), b", takeoff alternate ", listed.bytes()],
    )
}

// Writes the distance in nautical miles, if it is known.
fn miles_to(alloc: Global, range: &Range) -> Result<Text, OutOfMemory>
    ensures { IfOk result (λ t. t ≡ spec.miles_to range.now) }
{
    let station = range.station.bytes();
    let miles = known_text(alloc, range.miles, b" NM")?;
    joined(alloc, &[&station, b", distance ", miles.bytes()])
}

fn distance_text(alloc: Global, range: &Range) -> Result<Text, OutOfMemory>
    ensures { IfOk result (λ t. t ≡ spec.distance_text range.now) }
{
    let miles = miles_to(alloc, range)?;
    let allowed = with_unit(alloc, u64::from(range.allowed), b" NM")?;
    joined(alloc, &[miles.bytes(), b", allowed ", allowed.bytes()])
}

fn speed_text(alloc: Global, range: &Range) -> Result<Text, OutOfMemory>
    ensures { IfOk result (λ t. t ≡ spec.speed_text range.now) }
{
    let engines = number(alloc, u64::from(range.engines))?;
    let knots = number(alloc, u64::from(range.knots))?;
    joined(
        alloc,
        &[
            b", engines ",
            engines.bytes(),
            b" at ",
            knots.bytes(),
            b" knots",
        ],
    )
}

fn range_text(alloc: Global, range: &Range) -> Result<Text, OutOfMemory>
    ensures { IfOk result (λ t. t ≡ spec.range_text range.now) }
{
    let distance = distance_text(alloc, range)?;
    let speed = speed_text(alloc, range)?;
    joined(alloc, &[distance.bytes(), speed.bytes()])
}

fn floor_text(alloc: Global, floor: Option<Pair>) -> Result<Text, OutOfMemory>
    ensures { IfOk result (λ t. t ≡ spec.floor_text floor) }
{
    match floor {
        None => Text::of(alloc, b" none"),
        Some(pair) => pair_text(alloc, pair),
    }
}

// Writes the place, and the minutes around the ETA.
fn around_text(alloc: Global, need: &AlternateNeed) -> Result<Text, OutOfMemory>
    ensures { IfOk result (λ t. t ≡ spec.around_text need.now) }
{
    let station = need.station.bytes();
    let from = moment_text(alloc, need.from)?;
    let to = moment_text(alloc, need.to)?;
    joined(alloc, &[&station, b" ", from.bytes(), b" to ", to.bytes()])
}

// Writes the worst weather there.
fn worst_text(alloc: Global, need: &AlternateNeed) -> Result<Text, OutOfMemory>
    ensures { IfOk result (λ t. t ≡ spec.worst_text need.now) }
{
    let feet = known_text(alloc, need.weather.ceiling, b" ft")?;
    let miles = miles_text(alloc, need.weather.vis)?;
    joined(
        alloc,
        &[
            b" worst ceiling ",
            feet.bytes(),
            b" visibility ",
            miles.bytes(),
        ],
    )
}

fn window_text(alloc: Global, need: &AlternateNeed) -> Result<Text, OutOfMemory>
    ensures { IfOk result (λ t. t ≡ spec.window_text need.now) }
{
    let around = around_text(alloc, need)?;
    let worst = worst_text(alloc, need)?;
    joined(alloc, &[around.bytes(), worst.bytes()])
}

// Writes the longest time of a flag leg without an alternate.
fn longest_text(alloc: Global, longest: Option<u64>) -> Result<Text, OutOfMemory>
    ensures { IfOk result (λ t. t ≡ spec.longest_text longest) }
{
    match longest {
        None => Text::of(alloc, b""),
        Some(longest) => {
            let minutes = with_unit(alloc, longest, b" min")?;
            joined(alloc, &[b", longest ", minutes.bytes()])
        }
    }
}

// Writes the minutes from ETD to ETA.
fn hours_text(alloc: Global, need: &AlternateNeed) -> Result<Text, OutOfMemory>
    ensures { IfOk result (λ t. t ≡ spec.hours_text need.now) }
{
    let minutes = with_unit(alloc, need.minutes, b" min")?;
    let longest = longest_text(alloc, need.longest)?;
    joined(alloc, &[b", scheduled ", minutes.bytes(), longest.bytes()])
}

// Writes whether the route of a flag leg is approved without an alternate.
fn route_text(alloc: Global, is_free: Option<bool>) -> Result<Text, OutOfMemory>
    ensures { IfOk result (λ t. t ≡ spec.route_text is_free) }
{
    match is_free {
        None => Text::of(alloc, b""),
        Some(is_free) => joined(alloc, &[b", free route ", yes_or_no(is_free)]),
    }
}

// Writes whether an alternate is needed, and how many are listed.
fn count_text(alloc: Global, need: &AlternateNeed) -> Result<Text, OutOfMemory>
    ensures { IfOk result (λ t. t ≡ spec.count_text need.now) }
{
    let needed = yes_or_no(need.is_needed());
    let listed = number(alloc, need.listed as u64)?;
    joined(alloc, &[b", needed ", needed, b", listed ", listed.bytes()])
}

fn listed_text(alloc: Global, need: &AlternateNeed) -> Result<Text, OutOfMemory>
    ensures { IfOk result (λ t. t ≡ spec.listed_text need.now) }
{
    let count = count_text(alloc, need)?;
    let route = route_text(alloc, need.is_free)?;
    joined(alloc, &[count.bytes(), route.bytes()])
}

fn need_text(alloc: Global, need: &AlternateNeed) -> Result<Text, OutOfMemory>
    ensures { IfOk result (λ t. t ≡ spec.need_text need.now) }
{
    let window = window_text(alloc, need)?;
    let floor = floor_text(alloc, need.floor)?;
    let hours = hours_text(alloc, need)?;
    let listed = listed_text(alloc, need)?;
    joined(
        alloc,
        &[
            window.bytes(),
            b", floor",
            floor.bytes(),
            hours.bytes(),
            listed.bytes(),
        ],
    )
}

fn both_text(alloc: Global, second: &Second) -> Result<Text, OutOfMemory>
    ensures { IfOk result (λ t. t ≡ spec.both_text second.now) }
{
    let destination = weather_text(alloc, &second.destination)?;
    let alternate = weather_text(alloc, &second.alternate)?;
    joined(alloc, &[destination.bytes(), b"; ", alternate.bytes()])
}

fn margin_text(alloc: Global, second: &Second) -> Result<Text, OutOfMemory>
    ensures { IfOk result (λ t. t ≡ spec.margin_text second.now) }
{
    let margin = pair_text(alloc, second.margin)?;
    let both = both_text(alloc, second)?;
    joined(alloc, &[b"margin", margin.bytes(), b"; ", both.bytes()])
}

// Writes the longest leg; 0 is no limit.
fn longest_leg(alloc: Global, minutes: u32) -> Result<Text, OutOfMemory>
    ensures { IfOk result (λ t. t ≡ spec.longest_leg minutes) }
{
    if minutes == 0 {
        Text::of(alloc, b"no limit")
    } else {
        with_unit(alloc, u64::from(minutes), b" min")
    }
}

fn allowance_text(alloc: Global, allows: Option<Allowance>) -> Result<Text, OutOfMemory>
    ensures { IfOk result (λ t. t ≡ spec.allowance_text allows) }
{
    match allows {
        None => Text::of(alloc, b"not in the list"),
        Some(allows) => {
            let longest = longest_leg(alloc, allows.max_minutes)?;
            let flag = yes_or_no(allows.flag_ok);
            joined(
                alloc,
                &[b"flag allowed ", flag, b", longest leg ", longest.bytes()],
            )
        }
    }
}

fn flight_text(alloc: Global, limit: &ItemLimit) -> Result<Text, OutOfMemory>
    ensures { IfOk result (λ t. t ≡ spec.flight_text limit.now) }
{
    let minutes = with_unit(alloc, u64::from(limit.minutes), b" min")?;
    let flag = yes_or_no(limit.is_flag);
    joined(
        alloc,
        &[b", flag flight ", flag, b", in the air ", minutes.bytes()],
    )
}

fn item_text(alloc: Global, limit: &ItemLimit) -> Result<Text, OutOfMemory>
    ensures { IfOk result (λ t. t ≡ spec.item_text limit.now) }
{
    let flight = flight_text(alloc, limit)?;
    joined(alloc, &[limit.item.bytes(), flight.bytes()])
}

fn limit_text(alloc: Global, limit: &ItemLimit) -> Result<Text, OutOfMemory>
    ensures { IfOk result (λ t. t ≡ spec.limit_text limit.now) }
{
    let item = item_text(alloc, limit)?;
    let allows = allowance_text(alloc, limit.allows)?;
    let excluded = number_text(alloc, limit.excluded_by)?;
    joined(
        alloc,
        &[
            item.bytes(),
            b"; ",
            allows.bytes(),
            b"; excluded by ",
            excluded.bytes(),
        ],
    )
}

fn due_text(alloc: Global, due: Option<Minute>) -> Result<Text, OutOfMemory>
    ensures { IfOk result (λ t. t ≡ spec.due_text due) }
{
    match due {
        None => Text::of(alloc, b"none"),
        Some(due) => moment_text(alloc, due),
    }
}

fn found_text(alloc: Global, repair: &Repair) -> Result<Text, OutOfMemory>
    ensures { IfOk result (λ t. t ≡ spec.found_text repair.now) }
{
    let found = moment_text(alloc, repair.found)?;
    joined(alloc, &[repair.item.bytes(), b", found ", found.bytes()])
}

fn repair_text(alloc: Global, repair: &Repair) -> Result<Text, OutOfMemory>
    ensures { IfOk result (λ t. t ≡ spec.repair_text repair.now) }
{
    let found = found_text(alloc, repair)?;
    let due = due_text(alloc, repair.due)?;
    let eta = moment_text(alloc, repair.eta)?;
    joined(
        alloc,
        &[
            found.bytes(),
            b", due ",
            due.bytes(),
            b", ETA ",
            eta.bytes(),
        ],
    )
}

fn allowed_text(alloc: Global, airport: &AirportUse) -> Result<Text, OutOfMemory>
    ensures { IfOk result (λ t. t ≡ spec.allowed_text airport.now) }
{
    let station = airport.station.bytes();
    let allowed = yes_or_no(airport.may_use);
    joined(alloc, &[b" at ", &station, b", allowed ", allowed])
}

fn airport_text(alloc: Global, airport: &AirportUse) -> Result<Text, OutOfMemory>
    ensures { IfOk result (λ t. t ≡ spec.airport_text airport.now) }
{
    let allowed = allowed_text(alloc, airport)?;
    joined(alloc, &[airport.kind.bytes(), allowed.bytes()])
}

// Joins two words, each with a number after it.
pub(crate) fn two_numbers(
    alloc: Global,
    one: &[u8],
    first: u64,
    two: &[u8],
    second: u64,
) -> Result<Text, OutOfMemory>
    ensures { IfOk result (λ t. t ≡ spec.two_numbers one.now first two.now second) }
{
    let first = number(alloc, first)?;
    let second = number(alloc, second)?;
    joined(alloc, &[one, first.bytes(), two, second.bytes()])
}

// Writes what a line compares.
fn compared_text(alloc: Global, compared: &Compared) -> Result<Text, OutOfMemory>
    ensures { IfOk result (λ t. t ≡ spec.compared_text compared.now) }
{
    match compared {
        Compared::Time(elapsed) => time_text(alloc, elapsed),
        Compared::Weather(there) => judged_text(alloc, there),
        Compared::Takeoff(departure) => departure_text(alloc, departure),
        Compared::Distance(range) => range_text(alloc, range),
        Compared::Need(need) => need_text(alloc, need),
        Compared::Margin(second) => margin_text(alloc, second),
        Compared::Limit(limit) => limit_text(alloc, limit),
        Compared::Due(repair) => repair_text(alloc, repair),
        Compared::Airport(airport) => airport_text(alloc, airport),
        Compared::Fuel(sum) => fuel_text(alloc, sum),
        Compared::Board(fuel) => board_text(alloc, fuel),
        Compared::Tables(fault) => tables_text(alloc, *fault),
    }
}

fn holds_text(holds: bool) -> &'static [u8]
    ensures { result.now ≡ spec.holds_text holds }
{
    if holds { b" holds: " } else { b" fails: " }
}

// Writes a line: the finding that it is if it fails, whether it holds, and what it compares.
pub(crate) fn line_text(alloc: Global, line: &Line) -> Result<Text, OutOfMemory>
    ensures { IfOk result (λ t. t ≡ spec.line_text line.now) }
{
    let key = line.key();
    let key = finding_text(alloc, &key)?;
    let compared = compared_text(alloc, &line.compared)?;
    joined(
        alloc,
        &[
            key.bytes(),
            holds_text(line.holds()),
            compared.bytes(),
            b"\n",
        ],
    )
}

/// Writes a sheet in words, one line for each comparison: such as
/// `121.639/1/0 fails: stated 13475 lb, required 14000 lb = burn 4600 lb + extra 300 lb + alternate 4200 lb + reserve
/// 3975 lb (45 minutes at cruise_pph) + deferrals 925 lb`. Ceilings are in feet, and visibilities in sixteenths of a
/// statute mile, rounded down. What the weather lacks to the nearest minima is rounded up.
pub fn sheet_text(alloc: Global, lines: &[Line]) -> Result<Text, OutOfMemory>
    ensures { IfOk result (λ t. t ≡ spec.lines_text lines.now) }
{
    let mut out = Vec::new(alloc);
    for line in lines {
        let text = line_text(alloc, line)?;
        push_all(&mut out, &[text.bytes()])?;
    }
    Ok(Text::from_vec(out))
}
