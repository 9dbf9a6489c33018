ghost use Rattle.std.specs.Prelude.{◌≡◌, ◌≤◌, Some, Ok, IfOk, IfSome};
ghost use Rattle.codes.specs.Moment as spec;
ghost use Rattle.codes.specs.Moment.{time_of};

use crate::fault::Why;
use desk_time::{BadDay, FIRST, LAST, Minute, pair, resolve};

/// Reads a moment: two digits each of day of the month, hour and minute. The day is one of the five from `first_day`.
/// Returns None if a byte isn't a digit.
pub fn written_moment(digits: [u8; 6], first_day: u64) -> Option<Result<Minute, BadDay>>
    requires low { 10_000 ≤ first_day }
    requires high { first_day ≤ 48_000 }
    ensures value { result ≡ spec.written_moment digits first_day }
    ensures range { IfSome result (λ r. IfOk r (λ m. (FIRST ≤ m) × (m ≤ LAST))) }
{
    let [a, b, c, d, e, f] = digits;
    let day = pair(a, b)?;
    let hour = pair(c, d)?;
    let minute = pair(e, f)?;
    Some(resolve(first_day, day, hour, minute))
}

/// Returns the moment, or the reason why there is none. The reason is `miss` if a byte isn't a digit or the time
/// isn't valid.
pub fn moment_or(miss: Why, moment: Option<Result<Minute, BadDay>>) -> Result<Minute, Why>
    requires { IfSome moment (λ r. IfOk r (λ m. (FIRST ≤ m) × (m ≤ LAST))) }
    ensures value { result ≡ spec.moment_or miss moment }
    ensures range { IfOk result (λ m. (FIRST ≤ m) × (m ≤ LAST)) }
{
    match moment {
        None => Err(miss),
        Some(Ok(at)) => Ok(at),
        Some(Err(BadDay::BadTime)) => Err(miss),
        Some(Err(BadDay::OutOfReach)) => Err(Why::DayOutOfReach),
    }
}

/// Reads a group `DDHHMMZ` (FMH-1, 12.6.3). The day is one of the five from `first_day`. A malformed group or an
/// invalid time is `NotTime`, and a day out of reach is `DayOutOfReach`.
#[tactic(auto, unfolding(crate::specs::Moment::time_of))]
pub fn time_of(group: &[u8], first_day: u64) -> Result<Minute, Why>
    requires low { 10_000 ≤ first_day }
    requires high { first_day ≤ 48_000 }
    ensures value { result ≡ time_of group.now first_day }
    ensures range { IfOk result (λ m. (FIRST ≤ m) × (m ≤ LAST)) }
{
    match group {
        [a, b, c, d, e, f, b'Z'] => moment_or(
            Why::NotTime,
            written_moment([*a, *b, *c, *d, *e, *f], first_day),
        ),
        _ => Err(Why::NotTime),
    }
}
