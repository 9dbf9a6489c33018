ghost use Rattle.std.specs.Prelude.{ℕ, Some, ◌↔◌, ◌≡◌, ◌+◌, ◌*◌, ◌<◌, ◌≤◌, pos, IfSome, IfOk};
ghost use Rattle.desk_time.specs.Moments as spec;
ghost use Rattle.desk_time.specs.Moments.{Resolves, resolved, shown, written, minute_of, shown_of};
ghost use Rattle.desk_time.specs.Calendar.{day_of_month};

use crate::calendar::{day_at, day_of_month, parts_of};
use crate::digits::pair;

/// Minutes since 1970-01-01 00:00 UTC.
pub type Minute = u64;

/// The first moment that can be read: 2000-01-01 00:00.
pub const FIRST: u64 = 15_778_080;

/// The last moment that can be read: 2099-12-31 23:59.
pub const LAST: u64 = 68_374_079;

/// The last moment that can be printed. It is later than `LAST`, because a due time may lie past `LAST`.
pub const SHOWN_LAST: u64 = 69_000_000;

/// The first moment at which a leg may be planned: a day after `FIRST`.
pub const PLAN_FIRST: u64 = 15_779_520;

/// The last moment at which a leg may be planned: a day before `LAST`.
pub const PLAN_LAST: u64 = 68_372_639;

/// Why a day of the month and a time don't name a moment.
#[derive(Clone, Copy, Debug, PartialEq, Eq)]
pub enum BadDay {
    /// The day isn't from 1 to 31, or the time isn't from 00:00 to 24:00.
    BadTime,
    /// None of the five days has that day of the month, or the moment isn't from `FIRST` to `LAST`.
    OutOfReach,
}

fn moment_of(first_day: u64, day: u8, hour: u8, minute: u8) -> Result<Minute, BadDay>
    requires { first_day ≤ 48_000 }
    ensures value { result ≡ resolved first_day day hour minute }
    ensures range { IfOk result (λ m. (FIRST ≤ m) × (m ≤ LAST)) }
{
    if !is_time(day, hour, minute) {
        return Err(BadDay::BadTime);
    }
    match day_named(first_day, day) {
        None => Err(BadDay::OutOfReach),
        Some(named) => in_reach(1440 * named + 60 * hour as u64 + minute as u64),
    }
}

/// Finds the moment of a day of the month and a time, as reports give them. The day is searched for among the five
/// days from `first_day`, which counts from 1970-01-01. Hour 24 is the start of the next day. `BadTime` has
/// precedence over `OutOfReach`.
pub fn resolve(first_day: u64, day: u8, hour: u8, minute: u8) -> Result<Minute, BadDay>
    requires low { 10_000 ≤ first_day }
    requires high { first_day ≤ 48_000 }
    ensures value { result ≡ resolved first_day day hour minute }
    ensures range { IfOk result (λ m. (FIRST ≤ m) × (m ≤ LAST)) }
    // No two of the five days have the same day of the month.
    ensures exact { Resolves first_day day hour minute result }
{
    moment_of(first_day, day, hour, minute)
}

fn is_time(day: u8, hour: u8, minute: u8) -> bool
    ensures { result ≡ spec.is_time day hour minute }
{
    1 <= day && day <= 31 && minute <= 59 && (hour < 24 || hour == 24 && minute == 0)
}

fn in_reach(at: u64) -> Result<Minute, BadDay>
    ensures value { result ≡ spec.in_reach at }
    ensures range { IfOk result (λ m. (FIRST ≤ m) × (m ≤ LAST)) }
{
    if FIRST <= at && at <= LAST {
        Ok(at)
    } else {
        Err(BadDay::OutOfReach)
    }
}

// The first of the five days that has that day of the month.
fn day_named(first_day: u64, day: u8) -> Option<u64>
    requires { first_day ≤ 48_000 }
    ensures named { result ≡ spec.day_named 5 first_day day }
    ensures bound { IfSome result (λ d. d < first_day + 5) }
{
    for place in first_day..first_day + 5 {
        if day_of_month(place) == day {
            return Some(place);
        }
    }
    None
}

/// Prints a moment in ISO 8601, such as `2025-03-12T17:00Z`.
pub fn show(at: Minute) -> [u8; 17]
    requires low { FIRST ≤ at }
    requires high { at ≤ SHOWN_LAST }
    ensures { result ≡ shown at }
{
    let date = parts_of(at / 1440);
    let year = date.year;
    let (c, y) = ((year / 100) as u8, (year % 100) as u8);
    let (hour, minute) = ((at % 1440 / 60) as u8, (at % 1440 % 60) as u8);
    [
        48 + c / 10,
        48 + c % 10,
        48 + y / 10,
        48 + y % 10,
        b'-',
        48 + date.month / 10,
        48 + date.month % 10,
        b'-',
        48 + date.day / 10,
        48 + date.day % 10,
        b'T',
        48 + hour / 10,
        48 + hour % 10,
        b':',
        48 + minute / 10,
        48 + minute % 10,
        b'Z',
    ]
}

fn time_of(hour: u8, minute: u8) -> Option<u64>
    ensures value { result ≡ spec.time_of hour minute }
    ensures bound { IfSome result (λ n. n < 1440) }
{
    if hour < 24 && minute < 60 {
        Some(60 * hour as u64 + minute as u64)
    } else {
        None
    }
}

fn date_at(text: [u8; 8]) -> Option<u64>
    ensures value { result ≡ spec.date_at text }
    ensures bound { IfSome result (λ d. (10_957 ≤ d) × (d ≤ 2_932_896)) }
{
    let [a, b, c, d, e, f, g, h] = text;
    let year = 100 * pair(a, b)? as u16 + pair(c, d)? as u16;
    let month = pair(e, f)?;
    let day = pair(g, h)?;
    day_at(year, month, day)
}

fn time_at(text: [u8; 4]) -> Option<u64>
    ensures value { result ≡ spec.time_at text }
    ensures bound { IfSome result (λ d. d < 1440) }
{
    let [a, b, c, d] = text;
    let hour = pair(a, b)?;
    let minute = pair(c, d)?;
    time_of(hour, minute)
}

#[tactic(auto, unfolding(crate::specs::Moments::written))]
fn written(text: &[u8]) -> Option<Minute>
    ensures value { result ≡ written text.now }
    ensures low { IfSome result (λ m. FIRST ≤ m) }
{
    let [
        a,
        b,
        c,
        d,
        b'-',
        e,
        f,
        b'-',
        g,
        h,
        b'T',
        i,
        j,
        b':',
        k,
        l,
        b'Z',
    ] = text
    else {
        return None;
    };
    let day = date_at([*a, *b, *c, *d, *e, *f, *g, *h])?;
    let time = time_at([*i, *j, *k, *l])?;
    Some(1440 * day + time)
}

fn up_to(last: Minute, at: Minute) -> Option<Minute>
    ensures { result ≡ spec.up_to last at }
{
    if at <= last { Some(at) } else { None }
}

#[tactic(auto, unfolding(crate::specs::Moments::minute_of))]
fn minute_in(text: &[u8]) -> Option<Minute>
    ensures value { result ≡ minute_of text.now }
    ensures range { IfSome result (λ m. (FIRST ≤ m) × (m ≤ LAST)) }
{
    up_to(LAST, written(text)?)
}

#[tactic(auto, unfolding(crate::specs::Moments::shown_of))]
fn shown_in(text: &[u8]) -> Option<Minute>
    ensures value { result ≡ shown_of text.now }
    ensures range { IfSome result (λ m. (FIRST ≤ m) × (m ≤ SHOWN_LAST)) }
{
    up_to(SHOWN_LAST, written(text)?)
}

/// Reads a moment such as `2025-03-12T17:00Z`: a valid date from 2000 to 2099 and a time from 00:00 to 23:59. Accepts
/// exactly the texts that `show` prints for moments from `FIRST` to `LAST`.
pub fn read_minute(text: &[u8]) -> Option<Minute>
    ensures value { result ≡ minute_of text.now }
    ensures range { IfSome result (λ m. (FIRST ≤ m) × (m ≤ LAST)) }
    ensures exact { (m : ℕ) → (result ≡ Some m) ↔ ((FIRST ≤ m) × (m ≤ LAST) × (text.now ≡ shown m)) }
{
    minute_in(text)
}

/// Reads a moment as `read_minute` does, but up to `SHOWN_LAST`. Accepts exactly the texts that `show` prints.
pub fn read_shown(text: &[u8]) -> Option<Minute>
    ensures value { result ≡ shown_of text.now }
    ensures range { IfSome result (λ m. (FIRST ≤ m) × (m ≤ SHOWN_LAST)) }
    ensures exact { (m : ℕ) → (result ≡ Some m) ↔ ((FIRST ≤ m) × (m ≤ SHOWN_LAST) × (text.now ≡ shown m)) }
{
    shown_in(text)
}
