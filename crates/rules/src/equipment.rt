ghost use Rattle.std.specs.Prelude.{◌≡◌, ◌≤◌, ◌<◌, ◌+◌, ◌++◌, if◌then◌else◌, IfOk, OnOk};
ghost use Rattle.std.specs.Option.{option_copied};
ghost use Rattle.plan.specs.Check.{HasMoments};
ghost use Rattle.rules.specs.DestinationAlternates.{places_from};
ghost use Rattle.rules.specs.Equipment as spec;
ghost use Rattle.rules.specs.Sights.{case_by, of_deferral, limits_of_leg, equipment_of};

use crate::circumstances::Circumstances;
use crate::destination_alternates::is_domestic;
use deferrals::{Deferral, due};
use desk_io::{Listed, OutOfMemory, Station};
use ops_tables::MelRow;
use plan::{Alternate, Leg, TakeoffAlternate};
use std::alloc::Global;

/// What the rules on deferred equipment find on a leg for one deferral (14 CFR 121.628).
#[derive(Clone, Copy)]
struct OfDeferral {
    /// The item forbids the leg.
    is_limiting: bool,
    /// The item is due for repair by the ETA.
    is_overdue: bool,
}

/// What the rules on deferred equipment find on a leg.
#[derive(Drop)]
struct Deferred {
    /// The ids of the deferrals whose item forbids the leg.
    limiting: Listed<u64>,
    /// The ids of the deferrals that are due for repair by the ETA.
    overdue: Listed<u64>,
}

/// What the rules on equipment and airports find on a leg (14 CFR 121.628, 121.631).
#[derive(Drop)]
pub(crate) struct Equipment {
    /// The ids of the deferrals whose item forbids the leg.
    pub limiting: Listed<u64>,
    /// The ids of the deferrals that are due for repair by the ETA.
    pub overdue: Listed<u64>,
    /// The airports that the type may not use: 0 is the destination, 1 to 3 are the alternates, and 9 is the takeoff
    /// alternate.
    pub barred: Listed<u64>,
}

// Returns true if the leg is longer than the item allows.
fn is_too_long(row: &MelRow, leg: &Leg) -> bool
    ensures { result ≡ spec.is_too_long row.now leg.now }
{
    0 < row.max_minutes && row.max_minutes < leg.minutes
}

// Returns true if the item is due for repair at or before the ETA. An item found at or after the ETA isn't.
#[tactic(auto, using(crate::proofs::DueLaws::due_after))]
fn is_due_by(leg: &Leg, deferral: &Deferral, row: Option<&MelRow>) -> bool
    requires { HasMoments leg.now }
    ensures { result ≡ spec.is_due_by leg.now deferral.now (option_copied row.entry) }
{
    match row {
        None => false,
        Some(row) => deferral.found < leg.eta && due(row, deferral.found) <= leg.eta,
    }
}

impl<'a> Circumstances<'a> {
    // Returns true if the item may not be deferred together with that of an earlier deferral.
    fn is_paired_with(&self, deferral: &Deferral, earlier: &Deferral) -> bool
        ensures { result ≡ spec.is_paired_with (case_by self.now) deferral.now earlier.now }
    {
        let kind = self.aircraft.kind.bytes();
        earlier.id < deferral.id
            && self
                .evidence
                .tables
                .paired(kind, earlier.item.bytes(), deferral.item.bytes())
    }

    fn is_paired(&self, deferral: &Deferral) -> bool
        ensures { result ≡ spec.is_paired (case_by self.now) deferral.now }
    {
        for earlier in &self.deferred {
            if self.is_paired_with(deferral, earlier) {
                return true;
            }
        }
        false
    }

    fn forbids(&self, leg: &Leg, deferral: &Deferral, row: Option<&MelRow>) -> bool
        ensures { result ≡ spec.forbids (case_by self.now) leg.now deferral.now (option_copied row.entry) }
    {
        match row {
            None => true,
            Some(row) => {
                !is_domestic(self.flight) && !row.flag_ok
                    || is_too_long(row, leg)
                    || self.is_paired(deferral)
            }
        }
    }

    // Judges one deferral, with one lookup in the type's list.
    fn of_deferral(&self, leg: &Leg, deferral: &Deferral) -> OfDeferral
        requires { HasMoments leg.now }
        ensures { result ≡ of_deferral (case_by self.now) leg.now deferral.now }
    {
        let kind = self.aircraft.kind.bytes();
        let row = self.evidence.tables.item(kind, deferral.item.bytes());
        OfDeferral {
            is_limiting: self.forbids(leg, deferral, row),
            is_overdue: is_due_by(leg, deferral, row),
        }
    }

    fn deferred(&self, alloc: Global, leg: &Leg) -> Result<Deferred, OutOfMemory>
        requires { HasMoments leg.now }
        ensures { IfOk result (λ d. d ≡ limits_of_leg (case_by self.now) leg.now) }
    {
        let mut limiting = Listed::new(alloc);
        let mut overdue = Listed::new(alloc);
        for deferral in &self.deferred {
            let says = self.of_deferral(leg, deferral);
            if says.is_limiting {
                limiting.push(deferral.id)?;
            }
            if says.is_overdue {
                overdue.push(deferral.id)?;
            }
        }
        Ok(Deferred { limiting, overdue })
    }

    fn is_barred(&self, station: Station) -> bool
        ensures { result ≡ spec.is_barred (case_by self.now) station }
    {
        !self
            .evidence
            .tables
            .may_use(self.aircraft.kind.bytes(), station)
    }

    fn is_barred_takeoff(&self, alternate: Option<TakeoffAlternate>) -> bool
        ensures { result ≡ spec.is_barred_takeoff (case_by self.now) alternate }
    {
        match alternate {
            None => false,
            Some(it) => self.is_barred(it.station),
        }
    }

    // Adds the numbers, from 1, of the alternates that the type may not use.
    fn push_barred(
        &self,
        places: &mut Listed<u64>,
        alternates: &[Alternate],
    ) -> Result<(), OutOfMemory>
        ensures { OnOk result (places.new ≡ places.old ++ places_from
            (λ it. spec.is_barred (case_by self.now) it.station) 1 alternates.now) }
    {
        for (i, it) in alternates.iter().enumerate() {
            if self.is_barred(it.station) {
                places.push(i as u64 + 1)?;
            }
        }
        Ok(())
    }

    fn barred(&self, alloc: Global, ahead: bool, leg: &Leg) -> Result<Listed<u64>, OutOfMemory>
        ensures { IfOk result (λ places. places ≡ spec.barred (case_by self.now) ahead leg.now) }
    {
        let mut places = Listed::new(alloc);
        if self.is_barred(leg.to) {
            places.push(0)?;
        }
        self.push_barred(&mut places, leg.alternates.as_slice())?;
        if ahead && self.is_barred_takeoff(leg.takeoff_alternate) {
            places.push(9)?;
        }
        Ok(places)
    }

    /// Judges a leg by the rules on equipment and airports. Those on deferred equipment apply only if it hasn't
    /// departed.
    pub(crate) fn equipment(
        &self,
        alloc: Global,
        ahead: bool,
        leg: &Leg,
    ) -> Result<Equipment, OutOfMemory>
        requires { HasMoments leg.now }
        ensures { IfOk result (λ e. e ≡ equipment_of (case_by self.now) ahead leg.now) }
    {
        let barred = self.barred(alloc, ahead, leg)?;
        if ahead {
            let Deferred { limiting, overdue } = self.deferred(alloc, leg)?;
            Ok(Equipment {
                limiting,
                overdue,
                barred,
            })
        } else {
            Ok(Equipment {
                limiting: Listed::new(alloc),
                overdue: Listed::new(alloc),
                barred,
            })
        }
    }
}
