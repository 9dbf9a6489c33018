ghost use Rattle.std.specs.Prelude.{◌≡◌, ◌++◌, IfOk, OnOk, ◌∷◌, [], option_to_list};
ghost use Rattle.std.specs.Option.{option_copied};
ghost use Rattle.rules.specs.Equipment.{is_paired_with};
ghost use Rattle.sheet.specs.Circumstances.{case_by};
ghost use Rattle.sheet.specs.Equipment as spec;
ghost use Rattle.sheet.specs.Lines.{numbered};

use crate::circumstances::Circumstances;
use crate::fuel::is_domestic;
use crate::lines::{AirportUse, Allowance, Compared, ItemLimit, Line, Repair, Sheet};
use deferrals::{Deferral, due};
use desk_io::{Copied, OutOfMemory, Station, Text};
use desk_time::{LAST, Minute};
use ops_tables::MelRow;
use plan::{Alternate, Leg, Rule, TakeoffAlternate};
use std::alloc::Global;

fn allowance_of(row: &MelRow) -> Allowance
    ensures { result ≡ spec.allowance row.now }
{
    Allowance {
        flag_ok: row.flag_ok,
        max_minutes: row.max_minutes,
    }
}

// Returns the moment by which an item must be repaired, unless the fault was found after the last moment of the desk.
fn due_in_time(row: &MelRow, found: Minute) -> Option<Minute>
    ensures { result ≡ spec.due_in_time row.now found }
{
    if found <= LAST {
        Some(due(row, found))
    } else {
        None
    }
}

fn repair_of(
    alloc: Global,
    leg: &Leg,
    deferral: &Deferral,
    row: &MelRow,
) -> Result<Repair, OutOfMemory>
    ensures { IfOk result (λ r. r ≡ spec.repair leg.now deferral.now row.now) }
{
    Ok(Repair {
        item: deferral.item.copy(alloc)?,
        found: deferral.found,
        due: due_in_time(row, deferral.found),
        eta: leg.eta,
    })
}

impl<'a> Circumstances<'a> {
    fn row(&self, deferral: &Deferral) -> Option<&'a MelRow>
        ensures { option_copied result ≡ spec.row_of (case_by self.now) deferral.now }
    {
        let kind = self.aircraft.kind.bytes();
        self.world.tables.item(kind, deferral.item.bytes())
    }

    // Returns true if the item may not be deferred together with that of an earlier deferral.
    fn is_paired_with(&self, deferral: &Deferral, earlier: &Deferral) -> bool
        ensures { result ≡ is_paired_with (case_by self.now) deferral.now earlier.now }
    {
        let kind = self.aircraft.kind.bytes();
        earlier.id < deferral.id
            && self
                .world
                .tables
                .paired(kind, earlier.item.bytes(), deferral.item.bytes())
    }

    // Returns the id of the first earlier deferral whose item excludes this one.
    fn excluded_by(&self, deferral: &Deferral) -> Option<u64>
        ensures { result ≡ spec.excluded_by (case_by self.now) deferral.now }
    {
        for earlier in &self.deferred {
            if self.is_paired_with(deferral, earlier) {
                return Some(earlier.id);
            }
        }
        None
    }

    fn allows(&self, deferral: &Deferral) -> Option<Allowance>
        ensures { result ≡ spec.allows (case_by self.now) deferral.now }
    {
        match self.row(deferral) {
            None => None,
            Some(row) => Some(allowance_of(row)),
        }
    }

    fn item_limit(
        &self,
        alloc: Global,
        leg: &Leg,
        deferral: &Deferral,
    ) -> Result<ItemLimit, OutOfMemory>
        ensures { IfOk result (λ limit. limit ≡ spec.item_limit (case_by self.now) leg.now deferral.now) }
    {
        Ok(ItemLimit {
            item: deferral.item.copy(alloc)?,
            is_flag: !is_domestic(self.flight),
            minutes: leg.minutes,
            allows: self.allows(deferral),
            excluded_by: self.excluded_by(deferral),
        })
    }

    fn push_limit(
        &self,
        alloc: Global,
        sheet: &mut Sheet,
        number: u32,
        leg: &Leg,
        deferral: &Deferral,
    ) -> Result<(), OutOfMemory>
        ensures { OnOk result (sheet.new ≡ sheet.old ++ spec.limit_line (case_by self.now) number leg.now deferral.now
            ∷ []) }
    {
        let limit = self.item_limit(alloc, leg, deferral)?;
        sheet.push(Line {
            rule: Rule::No11,
            leg: number,
            place: deferral.id,
            compared: Compared::Limit(limit),
        })
    }

    /// Adds a line on the limits of each deferred item (14 CFR 121.628).
    pub(crate) fn push_limits(
        &self,
        alloc: Global,
        sheet: &mut Sheet,
        number: u32,
        leg: &Leg,
    ) -> Result<(), OutOfMemory>
        ensures { OnOk result (sheet.new ≡ sheet.old ++ spec.limit_lines (case_by self.now) number leg.now) }
    {
        for deferral in &self.deferred {
            self.push_limit(alloc, sheet, number, leg, deferral)?;
        }
        Ok(())
    }

    fn push_repair(
        &self,
        alloc: Global,
        sheet: &mut Sheet,
        number: u32,
        leg: &Leg,
        deferral: &Deferral,
    ) -> Result<(), OutOfMemory>
        ensures { OnOk result (sheet.new ≡ sheet.old ++ option_to_list (spec.repair_at number leg.now
            deferral.now (spec.row_of (case_by self.now) deferral.now))) }
    {
        match self.row(deferral) {
            None => Ok(()),
            Some(row) => {
                let repair = repair_of(alloc, leg, deferral, row)?;
                sheet.push(Line {
                    rule: Rule::No12,
                    leg: number,
                    place: deferral.id,
                    compared: Compared::Due(repair),
                })
            }
        }
    }

    /// Adds a line on the repair of each deferred item that the type's list has (14 CFR 121.628).
    pub(crate) fn push_repairs(
        &self,
        alloc: Global,
        sheet: &mut Sheet,
        number: u32,
        leg: &Leg,
    ) -> Result<(), OutOfMemory>
        ensures { OnOk result (sheet.new ≡ sheet.old ++ spec.repair_lines (case_by self.now) number leg.now) }
    {
        for deferral in &self.deferred {
            self.push_repair(alloc, sheet, number, leg, deferral)?;
        }
        Ok(())
    }

    fn airport_use(&self, alloc: Global, station: Station) -> Result<AirportUse, OutOfMemory>
        ensures { IfOk result (λ it. it ≡ spec.airport_use (case_by self.now) station) }
    {
        let kind = self.aircraft.kind.bytes();
        Ok(AirportUse {
            kind: Text::of(alloc, kind)?,
            station,
            may_use: self.world.tables.may_use(kind, station),
        })
    }

    fn push_airport(
        &self,
        alloc: Global,
        sheet: &mut Sheet,
        number: u32,
        place: u64,
        station: Station,
    ) -> Result<(), OutOfMemory>
        ensures { OnOk result (sheet.new ≡ sheet.old ++ spec.airport_line (case_by self.now) number place station
            ∷ []) }
    {
        let airport = self.airport_use(alloc, station)?;
        sheet.push(Line {
            rule: Rule::No13,
            leg: number,
            place,
            compared: Compared::Airport(airport),
        })
    }

    fn push_alternate_airports(
        &self,
        alloc: Global,
        sheet: &mut Sheet,
        number: u32,
        alternates: &[Alternate],
    ) -> Result<(), OutOfMemory>
        ensures { OnOk result (sheet.new ≡ sheet.old ++ numbered (spec.alternate_airport (case_by self.now) number)
            1 alternates.now) }
    {
        for (i, it) in alternates.iter().enumerate() {
            self.push_airport(alloc, sheet, number, i as u64 + 1, it.station)?;
        }
        Ok(())
    }

    fn push_takeoff_airport(
        &self,
        alloc: Global,
        sheet: &mut Sheet,
        ahead: bool,
        number: u32,
        listed: Option<TakeoffAlternate>,
    ) -> Result<(), OutOfMemory>
        ensures { OnOk result (sheet.new ≡ sheet.old ++ spec.takeoff_airport (case_by self.now) ahead number listed) }
    {
        match listed {
            Some(it) if ahead => self.push_airport(alloc, sheet, number, 9, it.station),
            _ => Ok(()),
        }
    }

    /// Adds a line on each airport of a leg that the type must be allowed to use (14 CFR 121.631). The takeoff
    /// alternate counts only if the leg hasn't departed.
    pub(crate) fn push_airports(
        &self,
        alloc: Global,
        sheet: &mut Sheet,
        ahead: bool,
        number: u32,
        leg: &Leg,
    ) -> Result<(), OutOfMemory>
        ensures { OnOk result (sheet.new ≡ sheet.old ++ spec.airport_lines (case_by self.now) ahead number leg.now) }
    {
        self.push_airport(alloc, sheet, number, 0, leg.to)?;
        self.push_alternate_airports(alloc, sheet, number, leg.alternates.as_slice())?;
        self.push_takeoff_airport(alloc, sheet, ahead, number, leg.takeoff_alternate)
    }
}
