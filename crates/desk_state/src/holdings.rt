ghost use Rattle.std.specs.Prelude.{◌≡◌, false};
ghost use Rattle.desk_state.specs.State.{start};
ghost use Rattle.desk_state.specs.Contents.{state_of};

use crate::counters::Counters;
use crate::history::History;
use alerts::Alert;
use deferrals::Deferrals;
use desk_io::ById;
use desk_time::{FIRST, Minute};
use facts::Reports;
use kept_replies::Replies;
use ops_tables::Tables;
use release_index::Releases;
use std::alloc::Global;

/// The parts of what the desk holds.
#[derive(Drop)]
pub struct Holdings {
    pub tables: Tables,
    /// The desk's moment, which is the latest that it has reached.
    pub moment: Minute,
    pub counters: Counters,
    /// In order of admission.
    pub reports: Reports,
    /// The open deferrals, in order of their ids.
    pub deferrals: Deferrals,
    /// In order of their ids.
    pub releases: Releases,
    /// In order of their releases.
    pub alerts: ById<Alert>,
    /// The kept replies of accepted commands, in order, and the floors of persons. A floor is the highest number of a
    /// person whose reply a sweep has removed.
    pub replies: Replies,
    pub history: History,
}

impl Holdings {
    /// Creates the parts of a new desk with these tables, at the first moment. Allocates no memory.
    pub fn new(alloc: Global, tables: Tables) -> Holdings
        ensures state { state_of result ≡ start tables }
        ensures settings { result.releases.settings ≡ result.tables.settings }
        ensures listed { result.history.listed ≡ false }
    {
        let releases = Releases::new(alloc, tables.settings());
        Holdings {
            tables,
            moment: FIRST,
            counters: Counters {
                events: 0,
                next_report: 1,
                next_deferral: 1,
                next_release: 1,
                next_kept: 1,
            },
            reports: Reports::new(alloc),
            deferrals: Deferrals::new(alloc),
            releases,
            alerts: ById::new(alloc),
            replies: Replies::new(alloc),
            history: History::new(),
        }
    }
}
