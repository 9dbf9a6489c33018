ghost use Rattle.std.specs.Prelude.{◌≡◌, ◌≤◌, ◌<◌, ◌+◌, ◌-◌, Ok, IfOk, length, drop};
ghost use Rattle.codes.specs.Period as spec;

use crate::cond::is_period;
use crate::fault::{BadReport, Why};
use crate::groups::{Group, Groups};
use crate::moment::{moment_or, written_moment};
use desk_time::{FIRST, LAST, Minute};

/// Reads the moment at which a period begins or ends: two digits each of day of the month, hour and minute. The day
/// is one of the five from `first_day`. The error is `DayOutOfReach` or `BadPeriod`.
pub fn end_of(digits: [u8; 6], first_day: u64) -> Result<Minute, Why>
    requires low { 10_000 ≤ first_day }
    requires high { first_day ≤ 48_000 }
    ensures value { result ≡ spec.end_of digits first_day }
    ensures range { IfOk result (λ m. (FIRST ≤ m) × (m ≤ LAST)) }
{
    moment_or(Why::BadPeriod, written_moment(digits, first_day))
}

#[tactic(auto, unfolding(crate::specs::Period::period_of))]
fn period_of(group: &[u8], first_day: u64) -> Result<(Minute, Minute), Why>
    requires low { 10_000 ≤ first_day }
    requires high { first_day ≤ 48_000 }
    ensures value { result ≡ spec.period_of group.now first_day }
    ensures range { IfOk result (λ p. (FIRST ≤ p.0) × (p.0 < p.1) × (p.1 ≤ LAST)) }
{
    let [a, b, c, d, _, e, f, g, h] = group else {
        return Err(Why::BadPeriod);
    };
    if !is_period(group) {
        return Err(Why::BadPeriod);
    }
    let from = end_of([*a, *b, *c, *d, b'0', b'0'], first_day)?;
    let to = end_of([*e, *f, *g, *h, b'0', b'0'], first_day)?;
    if from < to {
        Ok((from, to))
    } else {
        Err(Why::BadPeriod)
    }
}

/// Adds the group's number to an error.
pub fn numbered<T: Drop>(group: u32, value: Result<T, Why>) -> Result<T, BadReport>
    ensures { result ≡ spec.numbered group value }
{
    match value {
        Ok(value) => Ok(value),
        Err(why) => Err(BadReport { group, why }),
    }
}

/// Reads the period `DDHH/DDHH` in the first of the remaining groups, which has number `number` (WMO FM 51, 51.1.3).
/// The error is `Missing` if no group remains. It is `DayOutOfReach` if a day isn't among the five from `first_day`,
/// or a moment isn't from 2000 to 2099. Otherwise it is `BadPeriod`.
pub fn period_in(
    number: u32,
    groups: &[Group<'_>],
    first_day: u64,
) -> Result<(Minute, Minute), BadReport>
    requires low { 10_000 ≤ first_day }
    requires high { first_day ≤ 48_000 }
    ensures value { result ≡ spec.period_due number groups.now first_day }
    ensures range { IfOk result (λ p. (FIRST ≤ p.0) × (p.0 < p.1) × (p.1 ≤ LAST)) }
{
    match groups {
        [] => Err(BadReport {
            group: number,
            why: Why::Missing,
        }),
        [group, ..] => numbered(number, period_of(group.bytes(), first_day)),
    }
}

/// Reads the period at group number `n` as `period_in` does.
pub fn period_at(
    groups: &Groups<'_>,
    n: usize,
    first_day: u64,
) -> Result<(Minute, Minute), BadReport>
    requires low { 1 ≤ n }
    requires high { n ≤ length groups.now + 1 }
    requires count { length groups.now ≤ 4_294_967_294 }
    requires first_low { 10_000 ≤ first_day }
    requires first_high { first_day ≤ 48_000 }
    ensures value { result ≡ spec.period_due n (drop (n - 1) groups.now) first_day }
    ensures range { IfOk result (λ p. (FIRST ≤ p.0) × (p.0 < p.1) × (p.1 ≤ LAST)) }
{
    period_in(n as u32, &groups.as_slice()[n - 1..], first_day)
}
