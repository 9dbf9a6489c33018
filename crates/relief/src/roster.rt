ghost use Rattle.std.specs.Prelude.{◌≡◌, ◌++◌, ◌∷◌, [], List, ℕ, IfOk, OnErr, OnOk, is_some};
ghost use Rattle.std.specs.Option.{option_copied};
ghost use Rattle.ops_tables.specs.Names.{has_name};
ghost use Rattle.relief.specs.Calls.{IsForDesk};
ghost use Rattle.relief.specs.Handovers.{IsRosterAfter, accepted, after_all, after_one, changed_by, refusal_of};
ghost use Rattle.relief.specs.declared.handover.Handover.{Handover as Step};
ghost use Rattle.relief.specs.Refusals.{Passes, accept_refusal, call_refusal, offer_refusal};
ghost use Rattle.relief.specs.Roster.{HasEachOnce, desks_in, desks_of, first_roster, sitter_at, offered_at, with_line, offered_to, taken_by};

use crate::calls::call_for;
use crate::handover::Handover;
use crate::lines::{RosterLine, line_of, own_lines, place_of, sitter_in};
use crate::refusals::{ReliefFault, is_offered, may_go, sits};
use asks::Call;
use desk_io::{OutOfMemory, Text};
use ops_tables::Tables;
use std::alloc::Global;
use std::marker::Model;

/// Who sits at each desk. Contracts model it as its lines, one for each dispatcher, in the order of `actors.csv`.
#[derive(Debug, Drop)]
pub struct Roster {
    lines: Vec<RosterLine>,
}

impl Model for Roster {
    ghost use Rattle.std.specs.Prelude.{List};
    ghost use Rattle.relief.specs.declared.lines.RosterLine.{RosterLine};

    ghost Value = { List RosterLine };

    ghost view = { λ r. r.lines.items };
}

impl Roster {
    #[tactic(auto, using(crate::proofs::NameLaws::desks_once))]
    fn first(alloc: Global, tables: &Tables) -> Result<Roster, OutOfMemory>
        ensures value { IfOk result (λ roster. roster ≡ first_roster tables.now) }
        ensures once { HasEachOnce (desks_of tables.now) }
    {
        Ok(Roster {
            lines: own_lines(alloc, tables.actors())?,
        })
    }

    /// Makes the roster of these tables. Each dispatcher sits at his own desk, and no desk is offered.
    pub fn new(alloc: Global, tables: &Tables) -> Result<Roster, OutOfMemory>
        ensures value { IfOk result (λ roster. roster ≡ first_roster tables.now) }
        ensures desks { IfOk result (λ roster. desks_in roster ≡ desks_of tables.now) }
        ensures after { IfOk result (IsRosterAfter (desks_of tables.now) []) }
        ensures once { HasEachOnce (desks_of tables.now) }
    {
        Roster::first(alloc, tables)
    }

    /// Returns the lines, one for each dispatcher, in the order of `actors.csv`. It allocates nothing.
    pub fn lines(&self) -> &[RosterLine]
        ensures { result.now ≡ self.now }
    {
        &self.lines
    }

    /// Returns the person who sits at a desk; None exactly if there is no such desk. It allocates nothing.
    #[tactic(auto, using(crate::proofs::LineLaws::sits))]
    pub fn sitter(&self, desk: &[u8]) -> Option<&[u8]>
        ensures value { option_copied result ≡ sitter_at self.now desk.now }
        ensures known { is_some result ≡ has_name (desks_in self.now) desk.now }
    {
        sitter_in(&self.lines, desk)
    }

    /// Returns the person to whom a desk is offered, if any. It allocates nothing.
    pub fn offered(&self, desk: &[u8]) -> Option<&[u8]>
        ensures { option_copied result ≡ offered_at self.now desk.now }
    {
        match &line_of(&self.lines, desk)?.offered {
            None => None,
            Some(to) => Some(to.bytes()),
        }
    }

    /// Offers a desk to another dispatcher, in place of an earlier offer. It is refused if there is no such desk (32),
    /// if the actor doesn't sit there (31), or if `to` is no dispatcher or sits there already (34), in this order.
    /// Then nothing changes.
    pub fn offer(
        &mut self,
        alloc: Global,
        actor: &[u8],
        desk: &[u8],
        to: &[u8],
        tables: &Tables,
    ) -> Result<(), ReliefFault>
        ensures refusal { Passes result (offer_refusal tables.now self.old actor.now desk.now to.now) }
        ensures ok { OnOk result (self.new ≡ with_line (offered_to to.now) desk.now self.old) }
        ensures err { OnErr result (self.new ≡ self.old) }
        ensures desks { desks_in self.new ≡ desks_in self.old }
        ensures after { (desks : List (List ℕ)) → (made : List Step) → IsRosterAfter desks made self.old
            → OnOk result (IsRosterAfter desks (made ++ Handover.Offer actor.now desk.now to.now ∷ []) self.new) }
    {
        let Some(place) = place_of(&self.lines, desk) else {
            return Err(ReliefFault::NoSuchDesk);
        };
        let line = &self.lines[place];
        sits(alloc, line, actor)?;
        may_go(line, to, tables)?;
        let to = Text::of(alloc, to)?;
        self.lines[place].offered = Some(to);
        Ok(())
    }

    /// Accepts a desk: the actor sits there from now on, and it is offered to nobody. It is refused if there is no
    /// such desk (32), or if it isn't offered to the actor (33). Then nothing changes.
    pub fn accept(&mut self, alloc: Global, actor: &[u8], desk: &[u8]) -> Result<(), ReliefFault>
        ensures refusal { Passes result (accept_refusal self.old actor.now desk.now) }
        ensures ok { OnOk result (self.new ≡ with_line (taken_by actor.now) desk.now self.old) }
        ensures err { OnErr result (self.new ≡ self.old) }
        ensures desks { desks_in self.new ≡ desks_in self.old }
        ensures after { (desks : List (List ℕ)) → (made : List Step) → IsRosterAfter desks made self.old
            → OnOk result (IsRosterAfter desks (made ++ Handover.Accept actor.now desk.now ∷ []) self.new) }
    {
        let Some(place) = place_of(&self.lines, desk) else {
            return Err(ReliefFault::NoSuchDesk);
        };
        is_offered(alloc, &self.lines[place], actor)?;
        let sitter = Text::of(alloc, actor)?;
        let line = &mut self.lines[place];
        line.sitter = sitter;
        line.offered = None;
        Ok(())
    }

    /// Returns a call of the person who sits at a desk as a call of the desk, with its name and key. It is refused if
    /// there is no such desk (32), or if the call's actor doesn't sit there (31).
    #[tactic(auto, using(crate::proofs::CallLaws::is_desk))]
    pub fn translate(
        &self,
        alloc: Global,
        call: &Call,
        desk: &[u8],
        tables: &Tables,
    ) -> Result<Call, ReliefFault>
        requires { desks_in self.now ≡ desks_of tables.now }
        ensures refusal { Passes result (call_refusal self.now call.now.actor desk.now) }
        ensures value { IfOk result (IsForDesk tables.now desk.now call.now) }
    {
        let Some(line) = line_of(&self.lines, desk) else {
            return Err(ReliefFault::NoSuchDesk);
        };
        sits(alloc, line, call.actor.bytes())?;
        Ok(call_for(alloc, call, desk, tables)?)
    }

    /// Makes an offer or an acceptance, as `offer` and `accept` do.
    pub fn hand_over(
        &mut self,
        alloc: Global,
        handover: &Handover,
        tables: &Tables,
    ) -> Result<(), ReliefFault>
        ensures refusal { Passes result (refusal_of tables.now self.old handover.now) }
        ensures ok { OnOk result (self.new ≡ changed_by self.old handover.now) }
        ensures err { OnErr result (self.new ≡ self.old) }
        ensures desks { desks_in self.new ≡ desks_in self.old }
        ensures after { (desks : List (List ℕ)) → (made : List Step) → IsRosterAfter desks made self.old
            → OnOk result (IsRosterAfter desks (made ++ handover.now ∷ []) self.new) }
    {
        match handover {
            Handover::Offer { actor, desk, to } => {
                self.offer(alloc, actor.bytes(), desk.bytes(), to.bytes(), tables)
            }
            Handover::Accept { actor, desk } => self.accept(alloc, actor.bytes(), desk.bytes()),
        }
    }

    // Makes a handover unless it is refused.
    fn hand_over_if_accepted(
        &mut self,
        alloc: Global,
        handover: &Handover,
        tables: &Tables,
    ) -> Result<(), OutOfMemory>
        ensures { OnOk result (self.new ≡ after_one tables.now self.old handover.now) }
    {
        match self.hand_over(alloc, handover, tables) {
            Ok(()) => Ok(()),
            Err(ReliefFault::OutOfMemory) => Err(OutOfMemory),
            Err(_) => Ok(()),
        }
    }

    // Makes handovers one after another from the start.
    fn replayed(
        alloc: Global,
        tables: &Tables,
        handovers: &[Handover],
    ) -> Result<Roster, OutOfMemory>
        ensures value { IfOk result (λ roster. roster ≡ after_all tables.now (first_roster tables.now) handovers.now) }
        ensures once { HasEachOnce (desks_of tables.now) }
    {
        let mut roster = Roster::first(alloc, tables)?;
        for handover in handovers {
            roster.hand_over_if_accepted(alloc, handover, tables)?;
        }
        Ok(roster)
    }

    /// Makes the roster of these tables again from handovers, in their order. Those that it refuses change nothing, so
    /// the accepted ones alone give the same roster.
    pub fn replay(
        alloc: Global,
        tables: &Tables,
        handovers: &[Handover],
    ) -> Result<Roster, OutOfMemory>
        ensures value { IfOk result (λ roster. roster ≡ after_all tables.now (first_roster tables.now) handovers.now) }
        ensures desks { IfOk result (λ roster. desks_in roster ≡ desks_of tables.now) }
        ensures after { IfOk result (IsRosterAfter (desks_of tables.now)
            (accepted tables.now (first_roster tables.now) handovers.now)) }
        ensures again { after_all tables.now (first_roster tables.now)
            (accepted tables.now (first_roster tables.now) handovers.now)
            ≡ after_all tables.now (first_roster tables.now) handovers.now }
        ensures once { HasEachOnce (desks_of tables.now) }
    {
        Roster::replayed(alloc, tables, handovers)
    }
}
