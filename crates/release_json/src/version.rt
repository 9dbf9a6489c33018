ghost use Rattle.std.specs.Prelude.{◌≡◌};
ghost use Rattle.release_json.specs.Versions as spec;

/// The versions of rows that the desk can read. It writes the second.
#[derive(Clone, Copy, Debug, PartialEq, Eq)]
pub enum Version {
    /// A revision has no captain's hours.
    First,
    /// A revision has its captain's hours, or null.
    Second,
}

impl Version {
    /// Returns the number of the version, as it appears in the row of the counters.
    pub fn number(self) -> u64
        ensures { result ≡ spec.number_of self }
    {
        match self {
            Version::First => 1,
            Version::Second => 2,
        }
    }
}

/// Returns the number of members in the JSON of a revision.
pub(crate) fn members_of(version: Version) -> usize
    ensures { result ≡ spec.members_of version }
{
    match version {
        Version::First => 6,
        Version::Second => 7,
    }
}
