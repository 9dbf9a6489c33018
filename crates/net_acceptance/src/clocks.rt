use desk_net::{Clock, MemoryClock, SystemClock};
use desk_time::{FIRST, LAST};
use std::test::Fail;
use std::time::{Duration, SystemTime, UNIX_EPOCH};
use std::{io, time};

#[test]
fn a_clock_gives_its_moments_in_order_and_then_the_last_one_again(
    rt: HostRuntime,
) -> Result<(), Fail> {
    let moments = vec![in rt.alloc(); FIRST, FIRST + 5, LAST]?;
    let fail = vec![in rt.alloc(); 1, 4]?;
    let mut clock = MemoryClock::new(moments, fail);
    for (call, want, faults) in [
        (0, Some(FIRST), 0),
        (1, None, 1),
        (2, Some(FIRST + 5), 1),
        (3, Some(LAST), 1),
        (4, None, 2),
        (5, Some(LAST), 2),
    ] {
        let now = clock.now().ok();
        assert!(rt; now == want && clock.faults() == faults, "call {call}");
    }
    Ok(())
}

// A clock of the system that stands at so many seconds since 1970, or fails.
#[derive(Drop)]
pub(crate) struct Standing(pub Option<u64>);

impl time::Clock for Standing {
    fn monotonic(&self) -> io::Result<Duration> {
        self.since_1970()
    }

    fn since_1970(&self) -> io::Result<Duration> {
        match self.0 {
            Some(seconds) => Ok(Duration::from_secs(seconds)),
            None => Err(io::Error::from(io::ErrorKind::Other)),
        }
    }
}

#[test]
fn a_moment_out_of_reach_is_a_fault(rt: HostRuntime) {
    for (seconds, want, faults) in [
        (Some(946_684_799), None, 1),
        (Some(946_684_800), Some(FIRST), 0),
        (Some(946_684_859), Some(FIRST), 0),
        (Some(946_684_860), Some(FIRST + 1), 0),
        (Some(4_102_444_799), Some(LAST), 0),
        (Some(4_102_444_800), None, 1),
        (Some(0), None, 1),
        (Some(u64::MAX), None, 1),
        (None, None, 1),
    ] {
        let mut clock = SystemClock::new(Standing(seconds));
        let now = clock.now().ok();
        assert!(rt; now == want && clock.faults() == faults, "{seconds:?}");
    }
}

#[test]
fn the_systems_clock_goes_in_minutes(rt: HostRuntime) -> Result<(), Fail> {
    let mut clock = SystemClock::new(&rt);
    let before = SystemTime::now(&rt)?.duration_since(UNIX_EPOCH);
    let now = clock.now();
    let after = SystemTime::now(&rt)?.duration_since(UNIX_EPOCH);
    let (Ok(before), Ok(now), Ok(after)) = (before, now, after) else {
        panic!(rt; "no moment, or one before 1970");
    };
    assert!(rt; before.as_secs() / 60 <= now && now <= after.as_secs() / 60);
    assert!(rt; clock.faults() == 0);
    Ok(())
}
