ghost use Rattle.std.specs.Prelude.{◌≡◌, ◌≤◌, ◌↔◌, ◌+◌, ◌*◌, [], None, Some, IfOk, IfSome};
ghost use Rattle.asks.specs.Digests.{IsDigest};
ghost use Rattle.asks.specs.Forms.{CallHasForms, IsId};
ghost use Rattle.made_items.specs.Calls as spec;
ghost use Rattle.made_items.specs.Calls.{Came, calls, made_at};
ghost use Rattle.made_items.specs.Makers as making;
ghost use Rattle.made_items.specs.Makers.{begun, calls_left, how_many, next_call, noted, GoesOn};

use crate::calls::{admit, cancel, concur, draft, prepare, sign};
use crate::numbers::{minimum_of, next_number};
use asks::{Call, Done};
use desk_io::OutOfMemory;
use desk_time::Minute;
use std::alloc::Global;
use std::marker::Model;

/// The moment of all calls, 2025-03-12T17:25Z.
pub const MADE_AT: Minute = 29_030_005;

/// The call that comes next.
#[derive(Clone, Copy, Debug, PartialEq, Eq)]
pub enum Turn {
    /// Admit a forecast for Boston.
    First,
    /// Admit a forecast for New York.
    Second,
    /// Admit a forecast for Philadelphia.
    Third,
    /// Draft a flight.
    Draft,
    /// Prepare the flight's release.
    Prepare,
    /// Sign it as the dispatcher.
    Sign,
    /// Concur as the captain.
    Concur,
    /// Cancel it.
    Cancel,
    /// No call is left.
    End,
}

/// Generates the calls of a seed one by one, each with the results of those before it.
#[derive(Debug, Drop)]
pub struct Maker {
    turn: Turn,
    earlier: u32,
    left: u32,
    x: u32,
    release: u64,
    digest: [u8; 32],
}

impl Model for Maker {
    ghost use Rattle.std.specs.Prelude.{◌+◌, ◌≤◌};
    ghost use Rattle.asks.specs.Forms.{IsId};
    ghost use Rattle.asks.specs.Digests.{IsDigest};
    ghost use Rattle.made_items.specs.Makers.{Making};

    ghost Value = { Making };

    ghost view = { λ m. record {
      turn = m.turn;
      earlier = m.earlier;
      left = m.left;
      x = m.x;
      release = m.release;
      digest = m.digest;
    } };

    ghost invariant = { λ m. (m.earlier + m.left ≤ 20_000) × IsId m.release × IsDigest m.digest };
}

fn nameable(id: u64) -> u64
    ensures value { result ≡ spec.nameable id }
    ensures form { IsId result }
{
    if id <= 1_000_000_000_000_000 { id } else { 0 }
}

fn release_of(done: Option<Done>) -> u64
    ensures value { result ≡ spec.release_of done }
    ensures form { IsId result }
{
    match done {
        Some(Done::Filed { release, .. }) => nameable(release),
        _ => 0,
    }
}

fn no_digest() -> [u8; 32]
    ensures value { result ≡ spec.no_digest }
    ensures form { IsDigest result }
{
    [0; 32]
}

// Proves that 32 bytes are a digest, and returns them.
fn whole(digest: [u8; 32]) -> [u8; 32]
    ensures value { result ≡ digest }
    ensures form { IsDigest result }
{
    digest
}

fn digest_of(done: Option<Done>) -> [u8; 32]
    ensures value { result ≡ spec.digest_of done }
    ensures form { IsDigest result }
{
    match done {
        Some(Done::Prepared { digest, .. }) => whole(digest),
        _ => no_digest(),
    }
}

impl Maker {
    /// Starts with this seed, for `count` flights.
    #[tactic(auto, unfolding(crate::specs::Calls::calls, crate::specs::Makers::calls_left, crate::specs::Makers::how_many))]
    pub fn of(number: u32, count: u32) -> Maker
        requires { count ≤ 20_000 }
        ensures begun { result ≡ begun number count }
        ensures calls { (came : Came) → calls_left result came ≡ calls number count came }
        ensures many { how_many result ≡ 3 + 5 * count }
    {
        Maker {
            turn: Turn::First,
            earlier: 0,
            left: count,
            x: number,
            release: 0,
            digest: no_digest(),
        }
    }

    #[tactic(auto, unfolding(crate::specs::Makers::next_call))]
    fn call(&self, alloc: Global) -> Result<Option<Call>, OutOfMemory>
        ensures value { IfOk result (λ call. call ≡ next_call self.now) }
        ensures within { self.now.earlier ≤ 20_000 }
        ensures release { IsId self.now.release }
        ensures digest { IsDigest self.now.digest }
    {
        let call = match self.turn {
            Turn::First => admit(alloc, 1, b"TAF KBOS 121720Z 1218/1324 24010KT P6SM SCT040")?,
            Turn::Second => admit(alloc, 2, b"TAF KJFK 121720Z 1218/1324 24010KT P6SM BKN030")?,
            Turn::Third => admit(alloc, 3, b"TAF KPHL 121720Z 1218/1324 24010KT P6SM BKN030")?,
            Turn::Draft => draft(alloc, self.earlier, minimum_of(next_number(self.x)))?,
            Turn::Prepare => prepare(alloc, self.earlier, self.release)?,
            Turn::Sign => sign(alloc, self.earlier, self.release, self.digest)?,
            Turn::Concur => concur(alloc, self.earlier, self.release, self.digest)?,
            Turn::Cancel => cancel(alloc, self.earlier, self.release)?,
            Turn::End => return Ok(None),
        };
        Ok(Some(call))
    }

    /// Returns the next call, or None after the last one.
    pub fn next(&self, alloc: Global) -> Result<Option<Call>, OutOfMemory>
        ensures next { IfOk result (λ call. call ≡ next_call self.now) }
        ensures forms { IfOk result (λ call. IfSome call CallHasForms) }
        // It is None exactly if no call is left.
        ensures last { IfOk result (λ call. (call ≡ None) ↔ ((came : Came) → calls_left self.now came ≡ [])) }
    {
        self.call(alloc)
    }

    fn to_first(&mut self)
        ensures { self.new ≡ making.to_first self.old }
    {
        if self.left == 0 {
            self.turn = Turn::End;
        } else {
            self.turn = Turn::Draft;
            self.left -= 1;
        }
    }

    fn to_next(&mut self)
        ensures { self.new ≡ making.to_next self.old }
    {
        if self.left == 0 {
            self.turn = Turn::End;
        } else {
            self.turn = Turn::Draft;
            self.left -= 1;
            self.earlier += 1;
        }
    }

    #[tactic(auto, unfolding(crate::specs::Makers::noted))]
    fn step(&mut self, done: Option<Done>)
        ensures { self.new ≡ noted self.old done }
    {
        match self.turn {
            Turn::First => self.turn = Turn::Second,
            Turn::Second => self.turn = Turn::Third,
            Turn::Third => self.to_first(),
            Turn::Draft => {
                self.turn = Turn::Prepare;
                self.x = next_number(self.x);
                self.release = release_of(done);
            }
            Turn::Prepare => {
                self.turn = Turn::Sign;
                self.digest = digest_of(done);
            }
            Turn::Sign => self.turn = Turn::Concur,
            Turn::Concur => self.turn = Turn::Cancel,
            Turn::Cancel => self.to_next(),
            Turn::End => {}
        }
    }

    /// Takes the result of the next call, or None if it was refused, and moves on to the call after it.
    #[tactic(auto, using(crate::proofs::MakerLaws::goes_on))]
    pub fn note(&mut self, done: Option<Done>)
        ensures noted { self.new ≡ noted self.old done }
        ensures on { GoesOn self.old done self.new }
    {
        self.step(done);
    }
}
