ghost use Rattle.std.specs.Prelude.{◌≡◌, ◌≤◌, IsTrue, Some, OnOk};
ghost use Rattle.std.specs.Option.{option_copied};
ghost use Rattle.desk_state.specs.Contents.{state_of};
ghost use Rattle.desk_state.specs.Install.{HasReportRoom, HasOneMore, HasRoom, MayBeMade, room_of};

use crate::effect::{Effect, OnDeferrals};
use crate::holdings::Holdings;
use deferrals::Deferrals;
use desk_io::OutOfMemory;
use facts::{Report, Reports};
use std::alloc::Global;

fn reserve_report(reports: &mut Reports, report: Option<&Report>) -> Result<(), OutOfMemory>
    ensures same { reports.new.reports ≡ reports.old.reports }
    ensures room { OnOk result (HasReportRoom reports.new (option_copied report.entry)) }
{
    match report {
        None => Ok(()),
        Some(report) => reports.reserve(report),
    }
}

fn reserve_deferral(deferrals: &mut Deferrals, on: &OnDeferrals) -> Result<(), OutOfMemory>
    ensures same { deferrals.new.list ≡ deferrals.old.list }
    ensures room { OnOk result (HasOneMore deferrals.new on.now) }
{
    match on {
        OnDeferrals::Open(_) => deferrals.reserve(),
        OnDeferrals::Nothing | OnDeferrals::Clear { .. } => Ok(()),
    }
}

/// Reserves all memory that an event with this effect and up to `more` changed alerts needs. The state doesn't
/// change.
pub(crate) fn reserve(
    alloc: Global,
    holdings: &mut Holdings,
    effect: &Effect,
    more: usize,
) -> Result<(), OutOfMemory>
    requires { MayBeMade (state_of holdings.old) effect.now }
    ensures same { state_of holdings.new ≡ state_of holdings.old }
    ensures settings { holdings.new.releases.settings ≡ holdings.old.releases.settings }
    ensures listed { holdings.new.history.listed ≡ holdings.old.history.listed }
    ensures room { OnOk result (HasRoom holdings.new (room_of effect.now more)) }
{
    holdings.history.reserve()?;
    holdings.replies.reserve(alloc)?;
    holdings.alerts.reserve(more)?;
    reserve_report(&mut holdings.reports, effect.report.as_ref())?;
    reserve_deferral(&mut holdings.deferrals, &effect.on_deferrals)?;
    holdings.releases.reserve(alloc, &effect.on_releases)
}
