use alerts::Alert;

/// The alert of a release before and after a change.
#[derive(Debug, Drop)]
pub struct AlertChange {
    /// The id of the release.
    pub release: u64,
    /// The alert before the change, if there was one.
    pub before: Option<Alert>,
    /// The alert after the change, if there is one.
    pub after: Option<Alert>,
}
