ghost use Rattle.std.specs.Prelude.{◌≡◌, ◌||◌, ◌==◌, length, false, Some, None, OnOk};
ghost use Rattle.std.specs.List.{AllByRecursion};
ghost use Rattle.std.specs.Option.{option_copied};
ghost use Rattle.desk_state.specs.Contents.{held, state_of};
ghost use Rattle.desk_state.specs.Holds.{Holds};
ghost use Rattle.desk_state.specs.Install.{IsOwn, MayBeMade, MayPut, room_of, with_event, with_judged};
ghost use Rattle.desk_state.specs.State.{start, is_full, is_sweep, is_full_for, release_at, alert_at};

use crate::change::AlertChange;
use crate::counters::Counters;
use crate::effect::Effect;
use crate::event::Event;
use crate::held_alerts::put_changes;
use crate::history::History;
use crate::holdings::Holdings;
use crate::installing::install;
use crate::room::reserve;
use alerts::Alert;
use asks::Ask;
use deferrals::Deferrals;
use desk_io::OutOfMemory;
use desk_time::Minute;
use facts::Reports;
use kept_replies::Replies;
use ops_tables::Tables;
use plan::Release;
use release_index::Releases;
use std::alloc::Global;
use std::marker::Model;
use std::snapshot::Snapshot;

/// The maximum number of entries in a history.
pub const ENTRY_LIMIT: usize = 400_000;

/// While the desk keeps this many replies or more, it accepts only sweeps.
pub const KEPT_LIMIT: usize = 400_000;

/// Once this many events have happened, the desk accepts no further tick or command.
pub const EVENT_LIMIT: u64 = 999_999_999_999_000;

// The event for which memory is reserved.
#[derive(Drop)]
struct Room {
    effect: Snapshot<Effect>,
    // The maximum number of alerts that it changes.
    more: usize,
}

/// Everything that the desk holds. Contracts model the state and the event for which memory is reserved. The
/// invariant keeps each part within its bounds and forms, and each alert belongs to a stored release.
#[derive(Drop)]
pub struct Content {
    holdings: Holdings,
    room: Option<Room>,
}

impl Model for Content {
    ghost use Rattle.std.specs.Prelude.{◌≡◌, IfSome};
    ghost use Rattle.std.specs.Option.{option_map};
    ghost use Rattle.desk_state.specs.Contents.{Held, held, state_of};
    ghost use Rattle.desk_state.specs.Holds.{Holds};
    ghost use Rattle.desk_state.specs.Install.{HasRoom, room_of};

    ghost Value = { Held };

    ghost view = { λ c. held (state_of c.holdings) (option_map (λ r. room_of r.effect.value r.more) c.room)
        c.holdings.history.listed };

    ghost invariant = { λ c. Holds (state_of c.holdings) × (c.holdings.releases.settings ≡ c.holdings.tables.settings)
        × IfSome (option_map (λ r. room_of r.effect.value r.more) c.room) (HasRoom c.holdings) };
}

fn is_sweep(ask: &Ask) -> bool
    ensures { result ≡ is_sweep ask.now }
{
    match ask {
        Ask::Sweep { .. } => true,
        _ => false,
    }
}

impl Content {
    /// Creates the state of a new desk with these tables, at the first moment (2000-01-01T00:00Z). Allocates no
    /// memory.
    #[tactic(auto, using(crate::proofs::HoldLaws::start_holds))]
    pub fn new(alloc: Global, tables: Tables) -> Content
        ensures { result ≡ held (start tables) None false }
    {
        tables.are_named();
        Content {
            holdings: Holdings::new(alloc, tables),
            room: None,
        }
    }

    /// Wraps holdings, with no room reserved. Allocates no memory.
    pub fn from_holdings(holdings: Holdings) -> Content
        requires holds { Holds (state_of holdings) }
        requires settings { holdings.releases.settings ≡ holdings.tables.settings }
        ensures { result ≡ held (state_of holdings) None holdings.history.listed }
    {
        Content {
            holdings,
            room: None,
        }
    }

    /// States the invariant of the content for proofs. Does nothing at run time.
    pub fn holds(&self)
        ensures { Holds self.now.state }
    {
        let _ = &self.holdings;
    }

    /// Returns the airline's operations tables.
    pub fn tables(&self) -> &Tables
        ensures { result.now ≡ self.now.state.tables }
    {
        &self.holdings.tables
    }

    /// Returns the desk's moment, which is the latest that it has reached.
    pub fn moment(&self) -> Minute
        ensures { result ≡ self.now.state.moment }
    {
        self.holdings.moment
    }

    /// Returns the number of events and the next ids.
    pub fn counters(&self) -> Counters
        ensures { result ≡ self.now.state.counters }
    {
        self.holdings.counters
    }

    /// Returns the reports in order of admission.
    pub fn reports(&self) -> &Reports
        ensures { result.now.reports ≡ self.now.state.reports }
    {
        &self.holdings.reports
    }

    /// Returns the open deferrals in order of their ids.
    pub fn deferrals(&self) -> &Deferrals
        ensures { result.now.list ≡ self.now.state.deferrals }
    {
        &self.holdings.deferrals
    }

    /// Returns the releases in order of their ids.
    pub fn releases(&self) -> &Releases
        ensures list { result.now.list ≡ self.now.state.releases }
        ensures settings { result.now.settings ≡ self.now.state.tables.settings }
    {
        &self.holdings.releases
    }

    /// Returns the alerts in order of their releases.
    pub fn alerts(&self) -> &[Alert]
        ensures { result.now ≡ self.now.state.alerts }
    {
        self.holdings.alerts.as_slice()
    }

    /// Returns the kept replies of accepted commands, in order, and the floors of persons.
    pub fn replies(&self) -> &Replies
        ensures list { result.now.list ≡ self.now.state.kept }
        ensures floors { result.now.floors ≡ self.now.state.floors }
    {
        &self.holdings.replies
    }

    /// Returns the history.
    pub fn history(&self) -> &History
        ensures list { result.now.list ≡ self.now.state.entries }
        ensures listed { result.now.listed ≡ self.now.listed }
    {
        &self.holdings.history
    }

    /// If the history is empty, stores its entries from now on. Otherwise the entries stay stored or counted as
    /// before. Discards reserved room.
    pub fn hold_entries(&mut self, alloc: Global)
        ensures { self.new ≡ held self.old.state None (self.old.listed || (length self.old.state.entries == 0)) }
    {
        self.room = None;
        self.holdings.history.hold_entries(alloc);
    }

    /// Returns true if no further event may come.
    pub fn is_full(&self) -> bool
        ensures { result ≡ is_full self.now.state }
    {
        self.holdings.history.len() >= ENTRY_LIMIT || self.holdings.counters.events >= EVENT_LIMIT
    }

    /// Returns true if no command with this ask may come. If too many replies are kept, only a sweep may.
    pub fn is_full_for(&self, ask: &Ask) -> bool
        ensures { result ≡ is_full_for self.now.state ask.now }
    {
        self.is_full() || (self.holdings.replies.len() >= KEPT_LIMIT && !is_sweep(ask))
    }

    /// Looks up the release with this id by binary search. Allocates no memory.
    pub fn release(&self, id: u64) -> Option<&Release>
        ensures { option_copied result ≡ release_at id self.now.state.releases }
    {
        self.holdings.releases.get(id)
    }

    /// Looks up the alert of a release by binary search. Allocates no memory.
    pub fn alert(&self, id: u64) -> Option<&Alert>
        ensures { option_copied result ≡ alert_at id self.now.state.alerts }
    {
        self.holdings.alerts.get(id)
    }

    /// Reserves all memory that an event with this effect and up to `more` changed alerts needs. The state doesn't
    /// change. If memory runs out, no room is reserved.
    pub fn reserve(
        &mut self,
        alloc: Global,
        effect: &Effect,
        more: usize,
    ) -> Result<(), OutOfMemory>
        requires { MayBeMade self.old.state effect.now }
        ensures same { self.new.state ≡ self.old.state }
        ensures listed { self.new.listed ≡ self.old.listed }
        ensures room { OnOk result (self.new.room ≡ Some (room_of effect.now more)) }
    {
        self.room = None;
        reserve(alloc, &mut self.holdings, effect, more)?;
        self.room = Some(Room {
            effect: Snapshot::of(effect),
            more,
        });
        Ok(())
    }

    /// Installs an event, using reserved room. Allocates no memory.
    pub fn install(&mut self, event: Event)
        requires may { MayPut self.old event }
        requires holds { Holds (with_event event self.old.state) }
        ensures { self.new ≡ held (with_event event self.old.state) None self.old.listed }
    {
        self.room = None;
        install(&mut self.holdings, event);
    }

    /// Installs the alerts that a judgement changed, and sets the number of events. Used when a desk opens.
    pub fn put_judged(&mut self, changes: Vec<AlertChange>, events: u64) -> Result<(), OutOfMemory>
        requires own { AllByRecursion IsOwn changes.items }
        requires holds { Holds (with_judged changes.items events self.old.state) }
        ensures ok { OnOk result (self.new
            ≡ held (with_judged changes.items events self.old.state) None self.old.listed) }
    {
        self.room = None;
        self.holdings.alerts.reserve(changes.len())?;
        self.holdings.counters.events = events;
        put_changes(&mut self.holdings.alerts, changes);
        Ok(())
    }
}
