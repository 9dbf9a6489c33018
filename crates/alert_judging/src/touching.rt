ghost use Rattle.std.specs.Prelude.{◌≡◌, ◌++◌, ℕ, map, IfOk, OnOk};
ghost use Rattle.std.specs.Option.{option_copied};
ghost use Rattle.std.specs.List.Sorted.{IsStrictlyIncreasing};
ghost use Rattle.release_index.specs.Touched.{held_where, is_among};
ghost use Rattle.desk_state.specs.Touched as touched;
ghost use Rattle.alert_judging.specs.Touching as spec;
ghost use Rattle.alert_judging.specs.Touching.{Adds};

use crate::prospect::Prospect;
use deferrals::Deferral;
use desk_io::OutOfMemory;
use desk_state::{OnAlerts, OnDeferrals};
use plan::Release;
use release_index::OnReleases;
use std::alloc::Global;

// Appends the ids of the releases.
fn push_all(ids: &mut Vec<u64>, releases: &[Release]) -> Result<(), OutOfMemory>
    ensures { OnOk result (ids.new.items ≡ ids.old.items ++ map (λ r. r.id) releases.now) }
{
    for release in releases {
        ids.push(release.id)?;
    }
    Ok(())
}

// Sorts ids and removes duplicates. Allocates no memory.
fn sort_once(ids: &mut Vec<u64>)
    ensures rising { IsStrictlyIncreasing ids.new.items }
    ensures same { (id : ℕ) → is_among ids.new.items id ≡ is_among ids.old.items id }
{
    ids.sort_unstable();
    ids.dedup();
}

impl<'a> Prospect<'a> {
    // Appends the ids of the releases that the admitted report touches.
    fn push_by_report(&self, ids: &mut Vec<u64>) -> Result<(), OutOfMemory>
        ensures { OnOk result (Adds (λ id. held_where (touched.by_report self.now.effect.now.report) id
            self.now.content.now.state.releases) ids.old.items ids.new.items) }
    {
        let releases = self.content.releases();
        match &self.effect.report {
            None => Ok(()),
            Some(report) => releases.push_touched_at(ids, report.station()),
        }
    }

    // Appends the ids of the releases that the cleared deferral touches, if it is open.
    fn push_by_cleared(
        &self,
        ids: &mut Vec<u64>,
        cleared: Option<&Deferral>,
    ) -> Result<(), OutOfMemory>
        ensures { OnOk result (Adds (λ id. held_where (touched.by_cleared (option_copied cleared.entry)) id
            self.now.content.now.state.releases) ids.old.items ids.new.items) }
    {
        let releases = self.content.releases();
        match cleared {
            None => Ok(()),
            Some(deferral) => releases.push_touched_on(ids, deferral.tail.bytes()),
        }
    }

    // Appends the ids of the releases that the opened or cleared deferral touches.
    fn push_by_deferral(&self, ids: &mut Vec<u64>) -> Result<(), OutOfMemory>
        ensures { OnOk result (Adds (λ id. held_where (touched.by_deferral self.now.effect.now.on_deferrals
            self.now.content.now.state.deferrals) id self.now.content.now.state.releases) ids.old.items
            ids.new.items) }
    {
        let releases = self.content.releases();
        match &self.effect.on_deferrals {
            OnDeferrals::Nothing => Ok(()),
            OnDeferrals::Open(deferral) => releases.push_touched_on(ids, deferral.tail.bytes()),
            OnDeferrals::Clear { deferral } => {
                self.push_by_cleared(ids, self.content.deferrals().get(*deferral))
            }
        }
    }

    // Appends the ids of the releases that the passing time touches.
    fn push_by_time(&self, ids: &mut Vec<u64>) -> Result<(), OutOfMemory>
        ensures { OnOk result (Adds (λ id. held_where (touched.by_time self.now.effect.now.moment
            self.now.content.now.state.tables.settings self.now.content.now.state.moment) id
            self.now.content.now.state.releases) ids.old.items ids.new.items) }
    {
        let releases = self.content.releases();
        match self.effect.moment {
            None => Ok(()),
            Some(to) => releases.push_touched_by(ids, self.content.moment(), to),
        }
    }

    // Appends the id of the release that is filed or replaced.
    fn push_by_release(&self, ids: &mut Vec<u64>) -> Result<(), OutOfMemory>
        ensures { OnOk result (Adds (touched.by_release self.now.effect.now.on_releases) ids.old.items
            ids.new.items) }
    {
        match &self.effect.on_releases {
            OnReleases::Nothing | OnReleases::Remove { .. } => {}
            OnReleases::File(release) | OnReleases::Put(release) => ids.push(release.id)?,
        }
        Ok(())
    }

    // Appends the id of the release whose alert is removed or acknowledged.
    fn push_by_alert(&self, ids: &mut Vec<u64>) -> Result<(), OutOfMemory>
        ensures { OnOk result (Adds (touched.by_alert self.now.effect.now.on_alerts) ids.old.items
            ids.new.items) }
    {
        match self.effect.on_alerts {
            OnAlerts::Nothing => {}
            OnAlerts::Take { release } | OnAlerts::Acknowledge { release } => ids.push(release)?,
        }
        Ok(())
    }

    /// Returns the ids of the releases that the effect touches, in increasing order. Looks them up by binary search.
    pub(crate) fn touched_ids(&self, alloc: Global) -> Result<Vec<u64>, OutOfMemory>
        ensures rising { IfOk result (λ ids. IsStrictlyIncreasing ids.items) }
        ensures touched { IfOk result (λ ids. (id : ℕ) → is_among ids.items id
            ≡ spec.touches self.now.content.now.state self.now.effect.now id) }
    {
        let mut ids = Vec::new(alloc);
        self.push_by_report(&mut ids)?;
        self.push_by_deferral(&mut ids)?;
        self.push_by_time(&mut ids)?;
        self.push_by_release(&mut ids)?;
        self.push_by_alert(&mut ids)?;
        sort_once(&mut ids);
        Ok(ids)
    }

    /// Returns the ids of all stored releases and of the one that the effect brings, in increasing order.
    pub(crate) fn all_ids(&self, alloc: Global) -> Result<Vec<u64>, OutOfMemory>
        ensures rising { IfOk result (λ ids. IsStrictlyIncreasing ids.items) }
        ensures there { IfOk result (λ ids. (id : ℕ) → is_among ids.items id
            ≡ spec.is_there self.now.content.now.state self.now.effect.now id) }
    {
        let mut ids = Vec::new(alloc);
        push_all(&mut ids, self.content.releases().as_slice())?;
        self.push_by_release(&mut ids)?;
        sort_once(&mut ids);
        Ok(ids)
    }
}
