ghost use Rattle.std.specs.Prelude.{◌≡◌, ◌≤◌, ◌<◌, ◌+◌, ◌==◌, ◌||◌, false, length, map, slice_get, None, Some, is_some, IsTrue, IfOk, IfSome, OnOk, OnErr};
ghost use Rattle.std.specs.Option.{option_copied};
ghost use Rattle.desk_state.specs.State.{start, release_at, alert_at};
ghost use Rattle.desk_state.specs.Step.{answer_call, tick_to};
ghost use Rattle.desk_state.specs.Texts.{closing};
ghost use Rattle.desk_state.specs.Allowed.{MayLeadTo, MayTickTo};
ghost use Rattle.desk_state.specs.Causes.{RefusesFor};
ghost use Rattle.desk_state.specs.Counting.{most_judged, most_ticked};
ghost use Rattle.desk_state.specs.Told.{takes_alert, AreDifferences, takes_none};
ghost use Rattle.desk_state.specs.Once.{KeepsUsed};
ghost use Rattle.desk_state.specs.Requests.{kept_at};
ghost use Rattle.desk_state.specs.Repeats.{AcceptedOnce};
ghost use Rattle.desk_state.specs.Sound.{IsBoard, IsEntered};
ghost use Rattle.desk_state.specs.Sweeps.{SweepsWell};
ghost use Rattle.asks.specs.Ranges.{ReplyHasMoment};
ghost use Rattle.asks.specs.Forms.{CallHasForms};
ghost use Rattle.desk_io.specs.Rows.{Rows, rows_of, changed_by};
ghost use Rattle.keeper.specs.Kept.{AreSame};
ghost use Rattle.row_changes.specs.Upgraded.{opened_changes};
ghost use Rattle.row_changes.specs.Rows.{AreKept};
ghost use Rattle.desk_state.specs.Effects.{nothing};
ghost use Rattle.desk_state.specs.Events.{alert_changes};
ghost use Rattle.records.specs.Bodies.{row_in};
ghost use Rattle.records.specs.Reading.{version_if};
ghost use Rattle.row_changes.specs.Held.{AreOfDesk, state_in};
ghost use Rattle.row_changes.specs.Opening.{reopened};
ghost use Rattle.board.specs.Prepare.{shown, installed, IsStepped, IsAnswered, KeepsRows};

use crate::prepared::{Installed, Prepared};
use crate::restoring::{Reopened, restored};
use crate::steps::{install, prepare_answer, prepare_tick};
use alerts::Alert;
use asks::Call;
use decisions::closing;
use deferrals::Deferrals;
use desk_io::{Change, OutOfMemory, Text};
use desk_state::{Alerted, Content, Entry};
use desk_time::{LAST, Minute};
use facts::Reports;
use ops_tables::Tables;
use plan::Release;
use records::Record;
use rules::Steps;
use std::alloc::Global;
use std::marker::Model;
use std::snapshot::Snapshot;
use std::sync::ledger::Ledger;

/// The board of releases. Contracts model its state, the state in which it opened, and the prepared step that may be
/// installed without memory. Code keeps no copy of the opening state.
#[derive(Drop)]
pub struct Board {
    held: Alerted,
    opening: Snapshot<Alerted>,
    room: Option<Snapshot<Prepared>>,
}

/// A restored board.
#[derive(Drop)]
pub struct Restored {
    pub board: Board,
    /// The changes that opening makes to the rows. If they are of the second version and no alert changed, there are
    /// none.
    pub changes: Vec<Change>,
}

impl Model for Board {
    ghost use Rattle.std.specs.Prelude.{IfSome};
    ghost use Rattle.std.specs.Option.{option_map};
    ghost use Rattle.desk_state.specs.Sound.{IsBoard};
    ghost use Rattle.board.specs.Prepare.{Shown, shown, IsReady};

    ghost Value = { Shown };

    ghost view = { λ b. shown b.opening.value.state b.held.state (option_map (λ kept. kept.value) b.room)
        b.held.listed };

    ghost invariant = { λ b. IsBoard b.opening.value.state b.held.state
        × IfSome (option_map (λ kept. kept.value) b.room) (IsReady b.opening.value.state b.held) };
}

impl Board {
    /// Creates an empty board with the airline's tables, at 2000-01-01T00:00Z.
    #[tactic(auto, using(desk_state::proofs::Boards::start_board, desk_state::proofs::HoldLaws::start_sound))]
    pub fn new(alloc: Global, tables: Tables) -> Board
        ensures { result ≡ shown (start tables) (start tables) None false }
    {
        tables.are_named();
        let held = Alerted::of(Content::new(alloc, tables));
        let opening = Snapshot::of(&held);
        Board {
            held,
            opening,
            room: None,
        }
    }

    /// Restores the board that records represent, and judges its active releases. The records must be valid and in
    /// order. Returns the board, whose history is empty, and the changes to the rows. If `is_old` is true, the rows
    /// are of the first version, and those that differ in the second are rewritten.
    #[tactic(auto, using(row_changes::proofs::StateLaws::held_board))]
    pub fn restore<L: Ledger>(
        alloc: Global,
        tables: Tables,
        records: Vec<Record>,
        is_old: bool,
        steps: &mut Steps<L>,
    ) -> Result<Restored, OutOfMemory>
        requires { AreOfDesk records.items }
        ensures board { IfOk result (λ r. r.board ≡ shown (reopened (state_in tables records.items))
            (reopened (state_in tables records.items)) None false) }
        // There are none if no alert changed and the rows aren't old.
        ensures changes { IfOk result (λ r. r.changes.items ≡ opened_changes is_old (state_in tables records.items)
            (alert_changes nothing (state_in tables records.items))) }
        ensures rows { IfOk result (λ r. (rows : Rows)
            → AreSame rows (rows_of (map (row_in (version_if is_old)) records.items))
            → AreKept (changed_by r.changes.items rows) (reopened (state_in tables records.items))) }
    {
        tables.are_named();
        let Reopened { held, changes } = restored(alloc, tables, records, is_old, steps)?;
        let opening = Snapshot::of(&held);
        let board = Board {
            held,
            opening,
            room: None,
        };
        Ok(Restored { board, changes })
    }

    /// Prepares a call in a lane. The step has the reply, the next state and the notices of that call. The state
    /// doesn't change, and the step may then be installed without memory. If memory runs out, no step may. `steps`
    /// counts the plans that are judged.
    pub fn prepare_change<L: Ledger>(
        &mut self,
        alloc: Global,
        lane: u32,
        call: &Call,
        steps: &mut Steps<L>,
    ) -> Result<Prepared, OutOfMemory>
        requires { CallHasForms call.now }
        ensures stepped { IfOk result (λ p. IsStepped self.old.state p (answer_call self.old.state lane call.now)) }
        ensures shown { IfOk result (λ p. IfSome p.reply ReplyHasMoment) }
        ensures own { IfOk result (λ p. MayLeadTo lane call.now self.old.state (installed p self.old.state) p.reply) }
        ensures cause { IfOk result (λ p. RefusesFor self.old.state call.now p.reply) }
        ensures used { IfOk result (λ p. KeepsUsed self.old.state (installed p self.old.state)) }
        ensures again { IfOk result (λ p. AcceptedOnce self.old.state (installed p self.old.state) call.now) }
        ensures sweeps { IfOk result (λ p. SweepsWell self.old.state (installed p self.old.state) call.now p.reply) }
        ensures told { IfOk result (λ p. AreDifferences (takes_alert self.old.state call.now.ask) self.old.state
            (installed p self.old.state) p.notices) }
        ensures rows { IfOk result (λ p. KeepsRows self.old.state p) }
        ensures ok { IfOk result (λ p. self.new ≡ shown self.old.opening self.old.state (Some p) self.old.listed) }
        ensures err { OnErr result (self.new ≡ shown self.old.opening self.old.state None self.old.listed) }
        ensures steps { steps.new ≤ steps.old + most_judged self.old.state call.now.ask }
    {
        self.room = None;
        let prepared = prepare_answer(alloc, &mut self.held, lane, call, steps)?;
        self.room = Some(Snapshot::of(&prepared));
        Ok(prepared)
    }

    /// Prepares a tick to a later moment in a lane. The step has a reply only if the history is full.
    pub fn prepare_tick<L: Ledger>(
        &mut self,
        alloc: Global,
        lane: u32,
        to: Minute,
        steps: &mut Steps<L>,
    ) -> Result<Prepared, OutOfMemory>
        requires later { self.old.state.moment < to }
        requires within { to ≤ LAST }
        ensures stepped { IfOk result (λ p. IsStepped self.old.state p (tick_to self.old.state lane to)) }
        ensures shown { IfOk result (λ p. IfSome p.reply ReplyHasMoment) }
        ensures own { IfOk result (λ p. MayTickTo lane to self.old.state (installed p self.old.state) p.reply) }
        ensures used { IfOk result (λ p. KeepsUsed self.old.state (installed p self.old.state)) }
        ensures told { IfOk result (λ p. AreDifferences takes_none self.old.state
            (installed p self.old.state) p.notices) }
        ensures rows { IfOk result (λ p. KeepsRows self.old.state p) }
        ensures ok { IfOk result (λ p. self.new ≡ shown self.old.opening self.old.state (Some p) self.old.listed) }
        ensures err { OnErr result (self.new ≡ shown self.old.opening self.old.state None self.old.listed) }
        ensures steps { steps.new ≤ steps.old + most_ticked self.old.state to }
    {
        self.room = None;
        let prepared = prepare_tick(alloc, &mut self.held, lane, to, steps)?;
        self.room = Some(Snapshot::of(&prepared));
        Ok(prepared)
    }

    /// Installs a prepared step, which must be the last one prepared, with no change since. Allocates no memory.
    pub fn install(&mut self, prepared: Prepared) -> Installed
        requires { self.old.room ≡ Some prepared }
        ensures reply { result.reply ≡ prepared.reply }
        ensures notices { result.notices ≡ prepared.notices }
        ensures state { self.new ≡ shown self.old.opening (installed prepared self.old.state) None self.old.listed }
    {
        self.room = None;
        let Prepared {
            reply,
            notices,
            event,
            changes: _,
        } = prepared;
        install(&mut self.held, event);
        Installed { reply, notices }
    }

    /// Prepares and installs a call in a lane, and returns its reply and its notices. A refusal, a view, a repeated
    /// command and a report that is stored already change nothing. An accepted call comes from a known person with
    /// his key, whose role permits the ask. It changes no more than its ask may. If memory runs out, the state
    /// doesn't change.
    pub fn apply<L: Ledger>(
        &mut self,
        alloc: Global,
        lane: u32,
        call: &Call,
        steps: &mut Steps<L>,
    ) -> Result<Installed, OutOfMemory>
        requires { CallHasForms call.now }
        ensures answered { IfOk result (λ i. IsAnswered i (answer_call self.old.state lane call.now)) }
        ensures shown { IfOk result (λ i. IfSome i.reply ReplyHasMoment) }
        ensures state { OnOk result (self.new ≡ shown self.old.opening
            (answer_call self.old.state lane call.now).state None self.old.listed) }
        ensures own { IfOk result (λ i. MayLeadTo lane call.now self.old.state
            (answer_call self.old.state lane call.now).state i.reply) }
        ensures cause { IfOk result (λ i. RefusesFor self.old.state call.now i.reply) }
        ensures used { OnOk result (KeepsUsed self.old.state (answer_call self.old.state lane call.now).state) }
        ensures again { OnOk result (AcceptedOnce self.old.state
            (answer_call self.old.state lane call.now).state call.now) }
        ensures sweeps { IfOk result (λ i. SweepsWell self.old.state
            (answer_call self.old.state lane call.now).state call.now i.reply) }
        ensures told { IfOk result (λ i. AreDifferences (takes_alert self.old.state call.now.ask) self.old.state
            (answer_call self.old.state lane call.now).state i.notices) }
        ensures err { OnErr result (self.new ≡ shown self.old.opening self.old.state None self.old.listed) }
        ensures steps { steps.new ≤ steps.old + most_judged self.old.state call.now.ask }
    {
        let prepared = self.prepare_change(alloc, lane, call, steps)?;
        Ok(self.install(prepared))
    }

    /// Prepares and installs a tick to a later moment in a lane. It has a reply only if the history is full. If
    /// memory runs out, the state doesn't change.
    pub fn tick<L: Ledger>(
        &mut self,
        alloc: Global,
        lane: u32,
        to: Minute,
        steps: &mut Steps<L>,
    ) -> Result<Installed, OutOfMemory>
        requires later { self.old.state.moment < to }
        requires within { to ≤ LAST }
        ensures answered { IfOk result (λ i. IsAnswered i (tick_to self.old.state lane to)) }
        ensures own { IfOk result (λ i. MayTickTo lane to self.old.state
            (tick_to self.old.state lane to).state i.reply) }
        ensures used { OnOk result (KeepsUsed self.old.state (tick_to self.old.state lane to).state) }
        ensures told { IfOk result (λ i. AreDifferences takes_none self.old.state
            (tick_to self.old.state lane to).state i.notices) }
        ensures shown { IfOk result (λ i. IfSome i.reply ReplyHasMoment) }
        ensures state { OnOk result (self.new ≡ shown self.old.opening (tick_to self.old.state lane to).state None
            self.old.listed) }
        ensures err { OnErr result (self.new ≡ shown self.old.opening self.old.state None self.old.listed) }
        ensures steps { steps.new ≤ steps.old + most_ticked self.old.state to }
    {
        let prepared = self.prepare_tick(alloc, lane, to, steps)?;
        Ok(self.install(prepared))
    }

    /// Returns the board's moment, which is the latest that it has reached. The second clause states what always
    /// holds of a board. Its history is legal from the opening state, and each person's accepted calls appear in it
    /// once. Active plans change only at concurrences. Each active release has no alert and fails no rule, or has one
    /// alert that names exactly the rules that it fails. Each active revision has both signatures, and each part of the
    /// state has its forms.
    pub fn now(&self) -> Minute
        ensures moment { result ≡ self.now.state.moment }
        ensures board { IsBoard self.now.opening self.now.state }
    {
        self.held.content().moment()
    }

    /// Returns the number of entries in the history.
    pub fn entries(&self) -> usize
        ensures { result ≡ length self.now.state.entries }
    {
        self.held.content().history().len()
    }

    /// Returns true if the board stores the entries of its history, and doesn't only count them.
    pub fn is_listed(&self) -> bool
        ensures { result ≡ self.now.listed }
    {
        self.held.content().history().is_listed()
    }

    /// Returns an entry of the history, counted from 0. The board must store its entries.
    pub fn entry(&self, i: usize) -> &Entry
        requires bound { i < length self.now.state.entries }
        requires listed { IsTrue self.now.listed }
        ensures entry { slice_get self.now.state.entries i ≡ Some result.now }
        ensures form { IsEntered result.now.what }
    {
        self.held.content().history().get(i)
    }

    /// If the history is empty, stores its entries from now on. Otherwise they stay stored or counted as before. A
    /// prepared step can no longer be installed.
    pub fn hold_entries(&mut self, alloc: Global)
        ensures { self.new ≡ shown self.old.opening self.old.state None
            (self.old.listed || (length self.old.state.entries == 0)) }
    {
        self.room = None;
        self.held.hold_entries(alloc);
    }

    /// Returns true if a reply to the request of this person and number is kept, by binary search. Allocates no
    /// memory.
    pub fn kept(&self, actor: &[u8], number: u64) -> bool
        ensures { result ≡ is_some (kept_at actor.now number self.now.state.kept) }
    {
        match self.held.content().replies().kept_at(actor, number) {
            Some(_) => true,
            None => false,
        }
    }

    /// Returns all that the board holds.
    pub fn content(&self) -> &Content
        ensures { result.now.state ≡ self.now.state }
    {
        self.held.content()
    }

    /// Returns the airline's operations tables.
    pub fn tables(&self) -> &Tables
        ensures { result.now ≡ self.now.state.tables }
    {
        self.held.content().tables()
    }

    /// Returns the reports in order of admission.
    pub fn reports(&self) -> &Reports
        ensures { result.now.reports ≡ self.now.state.reports }
    {
        self.held.content().reports()
    }

    /// Returns the open deferrals in order of their ids.
    pub fn deferrals(&self) -> &Deferrals
        ensures { result.now.list ≡ self.now.state.deferrals }
    {
        self.held.content().deferrals()
    }

    /// Looks up the release with this id.
    pub fn release(&self, id: u64) -> Option<&Release>
        ensures { option_copied result ≡ release_at id self.now.state.releases }
    {
        self.held.content().release(id)
    }

    /// Looks up the alert of a release.
    pub fn alert(&self, id: u64) -> Option<&Alert>
        ensures { option_copied result ≡ alert_at id self.now.state.alerts }
    {
        self.held.content().alert(id)
    }

    /// Returns the number of releases.
    pub fn releases_held(&self) -> usize
        ensures { result ≡ length self.now.state.releases }
    {
        self.held.content().releases().len()
    }

    /// Returns the number of reports.
    pub fn reports_held(&self) -> usize
        ensures { result ≡ length self.now.state.reports }
    {
        self.held.content().reports().len()
    }

    /// Returns the text that ends a run: the releases, and the latest weather of all stations that have a report.
    pub fn closing(&self, alloc: Global) -> Result<Text, OutOfMemory>
        ensures { IfOk result (λ t. t ≡ closing self.now.state) }
    {
        closing(alloc, self.held.content())
    }
}
