use plan::Release;

/// What an event changes in the stored releases.
#[derive(Debug, Drop)]
pub enum OnReleases {
    Nothing,
    /// Adds a release, which the desk files under a new id.
    File(Release),
    /// Replaces the release with the same id.
    Put(Release),
    /// Removes the release with this id.
    Remove { release: u64 },
}
