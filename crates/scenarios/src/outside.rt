ghost use Rattle.std.specs.Prelude.{None};
ghost use Rattle.desk_io.specs.Health.{unsound};
ghost use Rattle.desk_io.specs.InMemory.{shelf_seen};
ghost use Rattle.desk_net.specs.Doors.{passed};
ghost use Rattle.desk_net.specs.InMemory.{clock_seen, door_seen, link_seen};

use desk_io::{Change, Failed, MemoryShelf, OutOfMemory, PutFault, Record, Row, Shelf};
use desk_net::{Clock, Door, Link, MemoryClock, MemoryDoor, MemoryLink, Passing};
use desk_time::Minute;
use keeper::{
    AccountEntry, Committed, KeepFault, Keeper, Loaded, MemoryKeeper, NotLoaded, Outcome,
};
use std::alloc::Global;
use std::sync::Arc;
use std::sync::atomic::{AtomicBool, Ordering};
use std::thread::yield_now;

/// A shelf in memory that counts its calls.
#[derive(Drop)]
pub struct CaseShelf {
    shelf: MemoryShelf,
    calls: u64,
}

impl CaseShelf {
    /// Starts with no call made.
    pub fn new(shelf: MemoryShelf) -> Self {
        CaseShelf { shelf, calls: 0 }
    }

    /// The number of calls made.
    pub fn calls(&self) -> u64 {
        self.calls
    }
}

impl Shelf for CaseShelf {
    ghost seen = { λ s. shelf_seen s.shelf };

    fn next(&mut self, name: &str, place: u64, into: &mut [u8]) -> Result<usize, Failed> {
        self.calls = self.calls.saturating_add(1);
        self.shelf.next(name, place, into)
    }

    fn faults(&self) -> u64 {
        self.shelf.faults()
    }
}

/// A clock in memory that counts the moments that it returns.
#[derive(Drop)]
pub struct CaseClock {
    clock: MemoryClock,
    given: u64,
    faults: u64,
}

impl CaseClock {
    /// Starts with no moment returned.
    pub fn new(clock: MemoryClock) -> Self {
        CaseClock {
            clock,
            given: 0,
            faults: 0,
        }
    }

    /// The number of moments returned.
    pub fn given(&self) -> u64 {
        self.given
    }
}

impl Clock for CaseClock {
    ghost seen = { λ c. record { dial = None; answers = (clock_seen c.clock).answers; health = unsound c.faults } };

    fn now(&mut self) -> Result<Minute, Failed> {
        match self.clock.now() {
            Ok(moment) => {
                self.given = self.given.saturating_add(1);
                Ok(moment)
            }
            Err(Failed) => {
                self.faults = self.faults.saturating_add(1);
                Err(Failed)
            }
        }
    }

    fn faults(&self) -> u64 {
        self.faults
    }
}

// How often a link checks whether another one has ended, before its read fails.
const MOST_TURNS: u32 = 20_000_000;

/// A link in memory whose reads wait until another link of its door has ended.
#[derive(Drop)]
pub struct CaseLink {
    link: MemoryLink,
    place: usize,
    after: Option<usize>,
    ended: Arc<Vec<AtomicBool>, Global>,
    faults: u64,
}

impl CaseLink {
    // Waits for the other link to end. Returns whether it did.
    fn may_come(&self) -> bool {
        let Some(place) = self.after else {
            return true;
        };
        let Some(ended) = self.ended.get(place) else {
            return true;
        };
        for _ in 0..MOST_TURNS {
            if ended.load(Ordering::SeqCst) {
                return true;
            }
            yield_now();
        }
        false
    }
}

impl Link for CaseLink {
    ghost seen = { λ l. record { stream = None; crossed = (link_seen l.link).crossed; health = unsound l.faults } };

    fn read(&mut self, into: &mut [u8]) -> Result<usize, Failed> {
        if self.may_come() {
            if let Ok(count) = self.link.read(into) {
                return Ok(count);
            }
        }
        self.faults = self.faults.saturating_add(1);
        Err(Failed)
    }

    fn write(&mut self, bytes: &[u8]) -> Result<(), PutFault> {
        let answer = self.link.write(bytes);
        if answer == Err(PutFault::Failed) {
            self.faults = self.faults.saturating_add(1);
        }
        answer
    }

    fn end(&mut self) {
        if let Some(ended) = self.ended.get(self.place) {
            ended.store(true, Ordering::SeqCst);
        }
    }

    fn faults(&self) -> u64 {
        self.faults
    }
}

/// A door in memory that counts its calls.
#[derive(Drop)]
pub struct CaseDoor {
    door: MemoryDoor,
    after: Vec<Option<usize>>,
    ended: Arc<Vec<AtomicBool>, Global>,
    came: usize,
    let_in: Record<CaseLink>,
    let_out: Record<CaseLink>,
    calls: u64,
    faults: u64,
}

impl CaseDoor {
    /// Starts with no call made. For each link, `after` has the place of the link that must end first, and `ended`
    /// has whether it has ended.
    pub fn new(
        door: MemoryDoor,
        after: Vec<Option<usize>>,
        ended: Arc<Vec<AtomicBool>, Global>,
    ) -> Self {
        CaseDoor {
            door,
            after,
            ended,
            came: 0,
            let_in: Record::new(),
            let_out: Record::new(),
            calls: 0,
            faults: 0,
        }
    }

    /// The number of calls that opened the door or accepted a link.
    pub fn calls(&self) -> u64 {
        self.calls
    }

    /// The port at which the door was last opened.
    pub fn port(&self) -> Option<u16> {
        self.door.port()
    }

    /// The links that were given back, in order.
    pub fn ended(&self) -> &[MemoryLink] {
        self.door.ended()
    }
}

impl Door for CaseDoor {
    type Link = CaseLink;

    ghost seen = { λ d. record {
      links = None;
      passed = passed d.let_in.list d.let_out.list;
      opened_at = (door_seen d.door).opened_at;
      health = unsound d.faults;
    } };

    fn bind(&mut self, port: u16) -> Result<(), Failed> {
        self.calls = self.calls.saturating_add(1);
        let answer = self.door.bind(port);
        if answer.is_err() {
            self.faults = self.faults.saturating_add(1);
        }
        answer
    }

    fn accept(&mut self) -> Result<CaseLink, Failed> {
        self.calls = self.calls.saturating_add(1);
        if let (Ok(ended), Ok(link)) = (Arc::try_clone(&self.ended), self.door.accept()) {
            let place = self.came;
            self.came = place.saturating_add(1);
            let after = self.after.get(place).copied().flatten();
            let link = CaseLink {
                link,
                place,
                after,
                ended,
                faults: 0,
            };
            self.let_in = self.let_in.with(&Passing { link: &link });
            return Ok(link);
        }
        self.faults = self.faults.saturating_add(1);
        Err(Failed)
    }

    fn done(&mut self, link: CaseLink) -> Result<(), OutOfMemory> {
        let let_out = self.let_out.with(&Passing { link: &link });
        self.door.done(link.link)?;
        self.let_out = let_out;
        Ok(())
    }

    fn faults(&self) -> u64 {
        self.faults
    }
}

/// A keeper in memory, which may be unable to load its rows.
#[derive(Drop)]
pub struct CaseKeeper {
    keeper: MemoryKeeper,
    loads: bool,
    commits: u64,
    account: Record<AccountEntry>,
    faults: u64,
}

impl CaseKeeper {
    /// Starts with no commit requested. `loads` tells whether the rows can be loaded.
    pub fn new(keeper: MemoryKeeper, loads: bool) -> Self {
        CaseKeeper {
            keeper,
            loads,
            commits: 0,
            account: Record::new(),
            faults: 0,
        }
    }

    /// The rows that it holds.
    pub fn rows(&self) -> &[Row] {
        self.keeper.rows()
    }
}

impl Keeper for CaseKeeper {
    ghost seen = { λ k. record {
      rows = None;
      commits = k.commits;
      account = k.account.list;
      health = unsound k.faults;
    } };

    #[tactic(auto, using(keeper::proofs::SeenLaws::grows_one))]
    fn load(&mut self, alloc: Global) -> Result<Vec<Row>, KeepFault> {
        if !self.loads {
            self.faults = self.faults.saturating_add(1);
            self.account = self.account.with(&NotLoaded);
            return Err(KeepFault::Failed);
        }
        match self.keeper.load(alloc) {
            Ok(rows) => {
                self.account = self.account.with(&Loaded { rows: &rows });
                Ok(rows)
            }
            Err(fault) => {
                self.account = self.account.with(&NotLoaded);
                Err(fault)
            }
        }
    }

    #[tactic(auto, using(keeper::proofs::AccountLaws::fails_refused, keeper::proofs::SeenLaws::grows_one))]
    fn commit(&mut self, alloc: Global, changes: &[Change]) -> Result<(), KeepFault> {
        self.commits = self.commits.saturating_add(1);
        match self.keeper.commit(alloc, changes) {
            Ok(()) => {
                self.account = self.account.with(&Committed {
                    changes,
                    outcome: Outcome::Done,
                });
                Ok(())
            }
            Err(KeepFault::OutOfMemory) => {
                self.account = self.account.with(&Committed {
                    changes,
                    outcome: Outcome::Refused,
                });
                Err(KeepFault::OutOfMemory)
            }
            Err(KeepFault::Failed) => {
                self.faults = self.faults.saturating_add(1);
                self.account = self.account.with(&Committed {
                    changes,
                    outcome: Outcome::Refused,
                });
                Err(KeepFault::Failed)
            }
        }
    }

    fn faults(&self) -> u64 {
        self.faults
    }
}
