ghost use Rattle.std.specs.Prelude.{◌≡◌, IfOk};
ghost use Rattle.std.specs.Option.{option_copied};
ghost use Rattle.alerts.specs.Notices as spec;

use crate::alert::Alert;
use desk_io::{Copied, Listed, OutOfMemory, Text};
use std::alloc::Global;

/// What happened to an alert.
#[derive(Clone, Copy, Debug, PartialEq, Eq)]
pub enum NoticeKind {
    /// The alert is new.
    Opened,
    /// The alert has a greater version.
    Changed,
    /// The alert was closed.
    Closed,
}

/// A notice about an alert, to whoever sits at the desk of its release.
#[derive(Debug, Drop)]
pub struct Notice {
    /// The desk, which has the name of the release's holder.
    pub desk: Text,
    /// The number of the release.
    pub release: u64,
    /// The version of the alert. A closed alert has its last version.
    pub version: u64,
    /// What happened to the alert.
    pub kind: NoticeKind,
}

/// A list of notices.
pub type Notices = Listed<Notice>;

fn made_notice(alloc: Global, kind: NoticeKind, alert: &Alert) -> Result<Notice, OutOfMemory>
    ensures { IfOk result (λ n. n ≡ spec.made_notice kind alert.now) }
{
    Ok(Notice {
        desk: alert.desk.copy(alloc)?,
        release: alert.release,
        version: alert.version,
        kind,
    })
}

/// Returns the notice about a release's alert, from the alert before and after an event. The alert was opened if it
/// is new, changed if its version increased, and closed if it is gone.
pub fn notice_of(
    alloc: Global,
    before: Option<&Alert>,
    after: Option<&Alert>,
) -> Result<Option<Notice>, OutOfMemory>
    ensures { IfOk result (λ n. n ≡ spec.notice_of (option_copied before.entry) (option_copied after.entry)) }
{
    match (before, after) {
        (None, None) => Ok(None),
        (None, Some(alert)) => Ok(Some(made_notice(alloc, NoticeKind::Opened, alert)?)),
        (Some(alert), None) => Ok(Some(made_notice(alloc, NoticeKind::Closed, alert)?)),
        (Some(one), Some(two)) => {
            if one.version < two.version {
                Ok(Some(made_notice(alloc, NoticeKind::Changed, two)?))
            } else {
                Ok(None)
            }
        }
    }
}
