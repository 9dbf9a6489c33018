ghost use Rattle.std.specs.Prelude.{◌≡◌, ◌<◌, not, [], length, IfOk, OnOk, OnErr, is_ok};
ghost use Rattle.std.specs.List.{All};
ghost use Rattle.desk_io.specs.Health.{HasFailed, IsStill};
ghost use Rattle.desk_io.specs.Planned.{is_planned, after};
ghost use Rattle.desk_net.specs.Clocks.{AddsAnswer, Shows};
ghost use Rattle.desk_time.specs.Limits.{IsMoment};
ghost use Rattle.desk_net.specs.Seen.{ClockGoesOn};

use crate::Clock;
use crate::answered::Answered;
use crate::planned::Calls;
use desk_io::{Failed, Record};
use desk_time::Minute;

/// A clock in memory. It returns its moments in order, and then repeats the last one. Calls of `now` are numbered
/// from 0. A call whose number is in `fail` fails and uses up no moment. With an empty `fail` the clock is sound.
#[derive(Drop)]
pub struct MemoryClock {
    moments: Vec<Minute>,
    place: usize,
    calls: Calls,
    answers: Record<Option<Minute>>,
    ghost within: { place < length moments.items },
    ghost in_range: { All IsMoment moments.items },
}

impl MemoryClock {
    /// Creates a clock of at least one moment, each from `FIRST` to `LAST`. Allocates nothing.
    pub fn new(moments: Vec<Minute>, fail: Vec<u64>) -> Self
        requires some { 0 < length moments.items }
        requires in_range { All IsMoment moments.items }
        ensures moments { result.moments.items ≡ moments.items }
        ensures place { result.place ≡ 0 }
        ensures fail { result.calls.fail.items ≡ fail.items }
        ensures calls { result.calls.made ≡ 0 }
        ensures faults { result.calls.faults ≡ 0 }
        ensures answers { result.answers.list ≡ [] }
    {
        MemoryClock {
            moments,
            place: 0,
            calls: Calls::new(fail),
            answers: Record::new(),
        }
    }
}

impl Clock for MemoryClock {
    ghost use Rattle.desk_net.specs.InMemory.{clock_seen};

    ghost seen = { clock_seen };

    fn now(&mut self) -> Result<Minute, Failed>
        ensures range { IfOk result IsMoment }
        ensures told { Shows (clock_seen self.old).dial (clock_seen self.new).dial result }
        ensures answers { AddsAnswer self.old.answers.list self.new.answers.list result }
        ensures on { ClockGoesOn (clock_seen self.old) (clock_seen self.new) }
        ensures cause { OnErr result (HasFailed (clock_seen self.old).health (clock_seen self.new).health) }
        ensures still { OnOk result (IsStill (clock_seen self.old).health (clock_seen self.new).health) }
        // The call succeeds exactly when `fail` doesn't list it.
        ensures planned { is_ok result ≡ not (is_planned self.old.calls.fail.items self.old.calls.made) }
        ensures fail { self.new.calls.fail.items ≡ self.old.calls.fail.items }
        ensures calls { self.new.calls.made ≡ after self.old.calls.made }
    {
        if self.calls.next_fails() {
            self.answers = self.answers.with(&Answered(None));
            return Err(Failed);
        }
        let moment = self.moments[self.place];
        if self.place + 1 < self.moments.len() {
            self.place += 1;
        }
        self.answers = self.answers.with(&Answered(Some(moment)));
        Ok(moment)
    }

    fn faults(&self) -> u64 {
        self.calls.faults()
    }
}
