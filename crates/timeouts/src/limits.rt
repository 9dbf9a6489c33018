ghost use Rattle.std.specs.Prelude.{◌≡◌, ◌+◌, ◌*◌, ◌<◌, ◌≤◌, IfNone, IfOk, IfSome};
ghost use Rattle.std.specs.Duration.{as_nanos};

use std::io;
use std::time::{Clock, Duration, Instant};

pub(crate) fn timed_out() -> io::Error {
    io::Error::from(io::ErrorKind::TimedOut)
}

// The time that is left of some seconds of which some time has passed. There is none if all have.
fn rest_of(seconds: u64, passed: Duration) -> Option<Duration>
    ensures some { IfSome result (λ rest. (as_nanos rest + as_nanos passed ≡ seconds * 1_000_000_000)
        × (0 < as_nanos rest)) }
    ensures none { IfNone result (seconds * 1_000_000_000 ≤ as_nanos passed) }
{
    let rest = Duration::from_secs(seconds).saturating_sub(passed);
    if rest.is_zero() { None } else { Some(rest) }
}

// The time that is left of some seconds since a start. An error means that none is left, or that the clock failed.
pub(crate) fn left<C: Clock>(clock: &C, start: Instant, seconds: u64) -> io::Result<Duration>
    ensures { IfOk result (λ rest. (0 < as_nanos rest) × (as_nanos rest ≤ seconds * 1_000_000_000)) }
{
    match rest_of(seconds, start.elapsed(clock)?) {
        Some(rest) => Ok(rest),
        None => Err(timed_out()),
    }
}
