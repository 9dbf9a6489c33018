ghost use Rattle.std.specs.Prelude.{◌≡◌, [], None, option_map, IfOk, IfSome, OnErr, OnOk};
ghost use Rattle.std.specs.Duration.{as_nanos};
ghost use Rattle.std.specs.Time.{system_time_nanos};
ghost use Rattle.desk_io.specs.Health.{GoesOn, HasFailed, IsStill, unsound};
ghost use Rattle.desk_net.specs.Clocks as spec;
ghost use Rattle.desk_net.specs.Clocks.{AddsAnswer};
ghost use Rattle.desk_time.specs.Limits.{IsMoment};
ghost use Rattle.desk_net.specs.System.{IsMinuteOf};

use crate::Clock;
use crate::answered::Answered;
use desk_io::{Failed, Record, counted};
use desk_time::{FIRST, LAST, Minute};
use std::snapshot::Snapshot;
use std::time::{Duration, SystemTime, UNIX_EPOCH};
use std::{io, time};

// The whole minutes of a duration since 1970, if they are from `FIRST` to `LAST`.
fn moment_in(since: Duration) -> Option<Minute>
    ensures value { result ≡ spec.moment_in (as_nanos since) }
    ensures range { IfSome result IsMoment }
{
    let minute = since.as_secs() / 60;
    if FIRST <= minute && minute <= LAST {
        Some(minute)
    } else {
        None
    }
}

// The same for a time of the system.
fn moment_at(time: SystemTime) -> Option<Minute>
    ensures value { result ≡ spec.moment_in (system_time_nanos time) }
    ensures range { IfSome result IsMoment }
{
    moment_in(time.duration_since(UNIX_EPOCH).ok()?)
}

/// The system's clock, in whole minutes since 1970-01-01 00:00 UTC without leap seconds. Contracts know exactly
/// its answers so far, and nothing of those to come. Every error of the system is a counted fault, and so is a moment
/// before `FIRST` or after `LAST`. Allocates nothing.
#[derive(Drop)]
pub struct SystemClock<R: time::Clock + Drop> {
    clock: R,
    told: Option<Snapshot<SystemTime>>,
    answers: Record<Option<Minute>>,
    faults: u64,
}

impl<R: time::Clock + Drop> SystemClock<R> {
    /// Creates a clock over the system's clock.
    pub fn new(clock: R) -> Self
        ensures faults { result.faults ≡ 0 }
        ensures answers { result.answers.list ≡ [] }
    {
        SystemClock {
            clock,
            told: None,
            answers: Record::new(),
            faults: 0,
        }
    }

    // Reads the system's time, which only contracts see in `told`, and returns its moment.
    fn read(&mut self) -> io::Result<Minute>
        ensures moment { IfOk result (IsMinuteOf (option_map (λ t. t.value) self.new.told)) }
        ensures range { IfOk result IsMoment }
        ensures answers { self.new.answers.list ≡ self.old.answers.list }
        ensures faults { self.new.faults ≡ self.old.faults }
    {
        let time = SystemTime::now(&self.clock)?;
        self.told = Some(Snapshot::of(&time));
        match moment_at(time) {
            Some(moment) => Ok(moment),
            None => Err(io::Error::from(io::ErrorKind::InvalidData)),
        }
    }
}

impl<R: time::Clock + Drop> Clock for SystemClock<R> {
    ghost seen = { λ c. record { dial = None; answers = c.answers.list; health = unsound c.faults } };

    fn now(&mut self) -> Result<Minute, Failed>
        ensures range { IfOk result IsMoment }
        ensures answers { AddsAnswer self.old.answers.list self.new.answers.list result }
        ensures on { GoesOn (unsound self.old.faults) (unsound self.new.faults) }
        ensures cause { OnErr result (HasFailed (unsound self.old.faults) (unsound self.new.faults)) }
        ensures still { OnOk result (IsStill (unsound self.old.faults) (unsound self.new.faults)) }
        // The moment is the whole minute of the time that the system returned in this call.
        ensures moment { IfOk result (IsMinuteOf (option_map (λ t. t.value) self.new.told)) }
    {
        let time = self.read();
        let answer = counted(time, &mut self.faults);
        self.answers = self.answers.with(&Answered(answer.ok()));
        answer
    }

    fn faults(&self) -> u64 {
        self.faults
    }
}
