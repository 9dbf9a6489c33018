ghost use Rattle.std.specs.Prelude.{◌≡◌};
ghost use Rattle.desk_time.specs.Limits.{IsMoment};
ghost use Rattle.service.specs.Pages as spec;

use alerts::Alert;
use desk::Board;
use desk_time::Minute;
use facts::Report;

/// What a desk holds, and whether its rows can be kept.
#[derive(Clone, Copy, Debug)]
pub struct Gauges {
    /// The desk's moment.
    pub at: Minute,
    /// The moment at which the newest report was received.
    pub received: Option<Minute>,
    /// Whether rows could be kept when they were to change last.
    pub keeps: bool,
    pub reports: usize,
    pub deferrals: usize,
    pub releases: usize,
    /// The replies kept for retries.
    pub replies: usize,
    /// The events since the first opening.
    pub events: u64,
    /// The ticks and accepted calls since the opening.
    pub entries: usize,
    /// The open alerts.
    pub alerts: usize,
    /// The open alerts that were acknowledged.
    pub acknowledged: usize,
}

fn last_received(reports: &[Report]) -> Option<Minute>
    ensures { result ≡ spec.last_received reports.now }
{
    match reports.get(reports.len().saturating_sub(1)) {
        Some(report) => Some(report.received),
        None => None,
    }
}

fn acknowledged_in(alerts: &[Alert]) -> usize
    ensures { result ≡ spec.acknowledged_in alerts.now }
{
    alerts.iter().filter(|a| a.acknowledged).count()
}

/// Measures a board.
pub(crate) fn gauges_of(board: &Board, keeps: bool) -> Gauges
    ensures gauges { result ≡ spec.gauges_of board.now.state keeps }
    ensures moment { IsMoment result.at }
{
    let content = board.content();
    content.holds();
    Gauges {
        at: content.moment(),
        received: last_received(content.reports().as_slice()),
        keeps,
        reports: content.reports().len(),
        deferrals: content.deferrals().as_slice().len(),
        releases: content.releases().len(),
        replies: content.replies().len(),
        events: content.counters().events,
        entries: board.entries(),
        alerts: content.alerts().len(),
        acknowledged: acknowledged_in(content.alerts()),
    }
}
