/// The number of events, and the next ids. No id is given twice.
#[derive(Clone, Copy, Debug, PartialEq, Eq)]
pub struct Counters {
    /// The number of ticks and accepted commands. A judgement on opening that changed an alert counts, too.
    pub events: u64,
    /// The id of the next report.
    pub next_report: u64,
    /// The id of the next deferral.
    pub next_deferral: u64,
    /// The id of the next release.
    pub next_release: u64,
    /// The id of the next accepted command.
    pub next_kept: u64,
}
