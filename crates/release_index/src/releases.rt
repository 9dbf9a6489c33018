ghost use Rattle.std.specs.Prelude.{◌≡◌, ◌≤◌, ◌==◌, ◌+◌, ◌||◌, [], ℕ, Some, filter, length, IfOk, OnErr, OnOk};
ghost use Rattle.std.specs.List.{AllByRecursion};
ghost use Rattle.std.specs.Option.{option_copied};
ghost use Rattle.desk_io.specs.ById.{AreRising};
ghost use Rattle.release_index.specs.Bounds.{ReleaseInBounds};
ghost use Rattle.release_index.specs.Changes.{MayChange, release_at, releases_after};
ghost use Rattle.release_index.specs.Found.{FindsBy};
ghost use Rattle.release_index.specs.Index.{IsIndexOf, onto_by};
ghost use Rattle.release_index.specs.Releases as spec;
ghost use Rattle.release_index.specs.Releases.{AreHeld, IsReady};
ghost use Rattle.release_index.specs.Tells.{TellsAt, TellsBy, TellsOn};
ghost use Rattle.release_index.specs.Touched.{held_where, is_among, touched_at, touched_by, touched_on};

use crate::change::OnReleases;
use crate::keys::Key;
use crate::moves::{By, Move, index_of, move_of, turn};
use crate::touched::{find_at, find_by, find_on};
use desk_io::{ById, Keys, OutOfMemory, Station};
use desk_time::Minute;
use ops_tables::Settings;
use plan::Release;
use std::alloc::Global;
use std::marker::Model;
use std::snapshot::Snapshot;

/// The maximum number of releases that the desk holds.
pub const RELEASE_LIMIT: usize = 20_000;

/// A change for which room is reserved, with the keys that it moves in each index.
#[derive(Drop)]
pub(crate) struct Ready {
    on: Snapshot<OnReleases>,
    stations: Move,
    tails: Move,
    dues: Move,
}

/// The releases that the desk holds, looked up by id or by what touches them. The list holds at most 20,000 releases,
/// in increasing order of their ids. Contracts model the list, the airline's settings and the change for which room
/// is reserved. The settings decide at which minutes time rules begin to fail.
#[derive(Drop)]
pub struct Releases {
    held: ById<Release>,
    // The index by the stations that active plans name.
    stations: Keys<Key>,
    // The index by the registration of the aircraft.
    tails: Keys<Key>,
    // The index by the minutes at which a time rule begins to fail.
    dues: Keys<Key>,
    settings: Settings,
    ready: Option<Ready>,
}

impl Model for Releases {
    ghost use Rattle.std.specs.Prelude.{IfSome};
    ghost use Rattle.std.specs.Option.{option_map};
    ghost use Rattle.release_index.specs.Releases.{AreHeld, HeldReleases, IsReady};

    ghost Value = { HeldReleases };

    ghost view = { λ r. record {
      list = r.held.list;
      settings = r.settings;
      room = option_map (λ ready. ready.on.value) r.ready;
    } };

    ghost invariant = { λ r. AreHeld r.settings r.held.list r.stations.keys r.tails.keys r.dues.keys
        × IfSome r.ready (IsReady r.settings r.held.list r.held.room r.stations.room r.tails.room
        r.dues.room) };
}

// Reserves room for one more release and for the keys to add. Releases, keys and room that were there remain, even if
// memory runs out.
fn take_room(
    held: &mut ById<Release>,
    stations: &mut Keys<Key>,
    tails: &mut Keys<Key>,
    dues: &mut Keys<Key>,
    by_station: &Move,
    by_tail: &Move,
    by_due: &Move,
) -> Result<(), OutOfMemory>
    ensures list { held.new.list ≡ held.old.list }
    ensures stations { stations.new.keys ≡ stations.old.keys }
    ensures tails { tails.new.keys ≡ tails.old.keys }
    ensures dues { dues.new.keys ≡ dues.old.keys }
    ensures kept { (held.old.room ≤ held.new.room) × (stations.old.room ≤ stations.new.room)
        × (tails.old.room ≤ tails.new.room) × (dues.old.room ≤ dues.new.room) }
    ensures room { OnOk result ((1 ≤ held.new.room) × (length by_station.now.coming.items ≤ stations.new.room)
        × (length by_tail.now.coming.items ≤ tails.new.room)
        × (length by_due.now.coming.items ≤ dues.new.room)) }
{
    held.reserve(1)?;
    stations.reserve(by_station.coming.as_slice().len())?;
    tails.reserve(by_tail.coming.as_slice().len())?;
    dues.reserve(by_due.coming.as_slice().len())
}

fn change_list(held: &mut ById<Release>, on: OnReleases)
    requires may { MayChange on held.old.list }
    requires room { 1 ≤ held.old.room }
    ensures { held.new.list ≡ releases_after on held.old.list }
{
    match on {
        OnReleases::Nothing => {}
        OnReleases::File(release) => held.push_reserved(release),
        OnReleases::Put(release) => held.replace(release),
        OnReleases::Remove { release } => {
            let _ = held.take(release);
        }
    }
}

// Applies the change for which room is reserved.
fn install(
    held: &mut ById<Release>,
    stations: &mut Keys<Key>,
    tails: &mut Keys<Key>,
    dues: &mut Keys<Key>,
    settings: Settings,
    ready: &Ready,
    on: OnReleases,
)
    requires change { ready.now.on.value ≡ on }
    requires held { AreHeld settings held.old.list stations.old.keys tails.old.keys dues.old.keys }
    requires ready { IsReady settings held.old.list held.old.room stations.old.room tails.old.room
        dues.old.room ready.now }
    ensures list { held.new.list ≡ releases_after on held.old.list }
    ensures held { AreHeld settings held.new.list stations.new.keys tails.new.keys dues.new.keys }
{
    turn(stations, &ready.stations);
    turn(tails, &ready.tails);
    turn(dues, &ready.dues);
    let _ = held.as_slice();
    change_list(held, on);
}

impl Releases {
    // Returns the index by stations, aircraft or minutes.
    fn keys(&self, by: By) -> &Keys<Key>
        ensures { IsIndexOf (onto_by by self.now.settings) result.now.keys self.now.list }
    {
        match by {
            By::Station => &self.stations,
            By::Tail => &self.tails,
            By::Due => &self.dues,
        }
    }

    // Returns the same index, with its meaning for a reader. It contains a key exactly if that key finds a release.
    // The release has the key's id and is active. It names the station or has the aircraft of the key's number, or a
    // time rule begins to fail for it at that minute.
    fn index(&self, by: By) -> &Keys<Key>
        ensures keys { IsIndexOf (onto_by by self.now.settings) result.now.keys self.now.list }
        ensures found { FindsBy by self.now.settings result.now.keys self.now.list }
    {
        self.keys(by)
    }

    /// Creates an empty collection, with no room reserved. Allocates no memory.
    pub fn new(alloc: Global, settings: Settings) -> Releases
        ensures { result ≡ spec.held_of settings [] }
    {
        Releases {
            held: ById::new(alloc),
            stations: Keys::new(alloc),
            tails: Keys::new(alloc),
            dues: Keys::new(alloc),
            settings,
            ready: None,
        }
    }

    /// Builds the collection and its indexes from a vector whose ids strictly increase.
    pub fn from_vec(
        alloc: Global,
        settings: Settings,
        list: Vec<Release>,
    ) -> Result<Releases, OutOfMemory>
        requires rising { AreRising (λ r. r.id) list.items }
        requires each { AllByRecursion ReleaseInBounds list.items }
        requires few { length list.items ≤ 20_000 }
        ensures { IfOk result (λ held. held ≡ spec.held_of settings list.items) }
    {
        let stations = index_of(alloc, By::Station, settings, list.as_slice())?;
        let tails = index_of(alloc, By::Tail, settings, list.as_slice())?;
        let dues = index_of(alloc, By::Due, settings, list.as_slice())?;
        Ok(Releases {
            held: ById::from_vec(list),
            stations,
            tails,
            dues,
            settings,
            ready: None,
        })
    }

    /// Returns the releases in increasing order of their ids. Allocates no memory.
    pub fn as_slice(&self) -> &[Release]
        ensures value { result.now ≡ self.now.list }
        ensures rising { AreRising (λ r. r.id) result.now }
        ensures each { AllByRecursion ReleaseInBounds result.now }
        ensures few { length result.now ≤ RELEASE_LIMIT }
    {
        self.held.as_slice()
    }

    /// Returns the number of releases.
    pub fn len(&self) -> usize
        ensures { result ≡ length self.now.list }
    {
        self.held.as_slice().len()
    }

    /// Returns true if there are no releases.
    pub fn is_empty(&self) -> bool
        ensures { result ≡ (length self.now.list == 0) }
    {
        self.held.as_slice().is_empty()
    }

    /// Looks up the release with this id. Allocates no memory.
    pub fn get(&self, id: u64) -> Option<&Release>
        ensures { option_copied result ≡ release_at id self.now.list }
    {
        self.held.get(id)
    }

    /// Reserves room for a change, and leaves the releases as they are. If memory runs out, nothing changes.
    pub fn reserve(&mut self, alloc: Global, on: &OnReleases) -> Result<(), OutOfMemory>
        requires { MayChange on.now self.old.list }
        ensures ok { OnOk result (self.new ≡ spec.reserved self.old on.now) }
        ensures err { OnErr result (self.new ≡ self.old) }
    {
        let stations = move_of(alloc, By::Station, self.settings, &self.held, on)?;
        let tails = move_of(alloc, By::Tail, self.settings, &self.held, on)?;
        let dues = move_of(alloc, By::Due, self.settings, &self.held, on)?;
        take_room(
            &mut self.held,
            &mut self.stations,
            &mut self.tails,
            &mut self.dues,
            &stations,
            &tails,
            &dues,
        )?;
        self.ready = Some(Ready {
            on: Snapshot::of(on),
            stations,
            tails,
            dues,
        });
        Ok(())
    }

    /// Applies the change for which room is reserved, and leaves no room. Allocates no memory.
    pub fn change(&mut self, on: OnReleases)
        requires { self.old.room ≡ Some on }
        ensures { self.new ≡ spec.changed on self.old }
    {
        match self.ready.take() {
            None => unreachable!(),
            Some(ready) => install(
                &mut self.held,
                &mut self.stations,
                &mut self.tails,
                &mut self.dues,
                self.settings,
                &ready,
                on,
            ),
        }
    }

    /// Appends the ids of the releases that a report of this station touches, each once. These are the active
    /// releases whose active plan names the station in a leg not yet flown. Looks them up by binary search.
    #[tactic(auto, using(crate::proofs::TellLaws::tells_at))]
    pub fn push_touched_at(&self, ids: &mut Vec<u64>, station: Station) -> Result<(), OutOfMemory>
        ensures touched { OnOk result ((id : ℕ) → is_among ids.new.items id
            ≡ (is_among ids.old.items id || held_where (touched_at station) id self.now.list)) }
        ensures few { OnOk result (length ids.new.items
            ≤ length ids.old.items + length (filter (touched_at station) self.now.list)) }
        ensures tells { TellsAt station }
    {
        find_at(ids, &self.held, self.index(By::Station), station)
    }

    /// Appends the ids of the releases that a deferral on this aircraft touches, each once. These are the active
    /// releases whose active plan uses the aircraft. Looks them up by binary search.
    #[tactic(auto, using(crate::proofs::TellLaws::tells_on))]
    pub fn push_touched_on(&self, ids: &mut Vec<u64>, tail: &[u8]) -> Result<(), OutOfMemory>
        ensures touched { OnOk result ((id : ℕ) → is_among ids.new.items id
            ≡ (is_among ids.old.items id || held_where (touched_on tail.now) id self.now.list)) }
        ensures few { OnOk result (length ids.new.items
            ≤ length ids.old.items + length (filter (touched_on tail.now) self.now.list)) }
        ensures tells { TellsOn tail.now }
    {
        find_on(ids, &self.held, self.index(By::Tail), tail)
    }

    /// Appends the ids of the active releases for which a time rule begins to fail after `moment` and at or before
    /// `minute`, each once. Looks them up by binary search.
    #[tactic(auto, using(crate::proofs::TellLaws::tells_by))]
    pub fn push_touched_by(
        &self,
        ids: &mut Vec<u64>,
        moment: Minute,
        minute: Minute,
    ) -> Result<(), OutOfMemory>
        ensures touched { OnOk result ((id : ℕ) → is_among ids.new.items id
            ≡ (is_among ids.old.items id || held_where (touched_by self.now.settings moment minute) id self.now.list)) }
        ensures few { OnOk result (length ids.new.items
            ≤ length ids.old.items + length (filter (touched_by self.now.settings moment minute) self.now.list)) }
        ensures tells { TellsBy self.now.settings moment minute }
    {
        find_by(
            ids,
            &self.held,
            self.index(By::Due),
            self.settings,
            moment,
            minute,
        )
    }
}
