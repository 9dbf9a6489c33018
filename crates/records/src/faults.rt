ghost use Rattle.std.specs.Prelude.{◌≡◌};
ghost use Rattle.records.specs.Faults as spec;

use desk_io::{OutOfMemory, Row};

/// Why a row is bad.
#[derive(Clone, Copy, Debug, PartialEq, Eq)]
pub enum RowWhy {
    /// It isn't the row of any valid record.
    NotCanonical,
    /// There are rows, but no meta row.
    NoMeta,
    /// It is an alert without a release.
    Orphan,
    /// It is one too many of its kind, or it counts too many events.
    OverLimit,
}

/// Why rows can't be loaded.
#[derive(Debug, Drop)]
pub enum RowsFault {
    /// The first row that fails a test.
    BadRow { row: Row, why: RowWhy },
    /// The first row that conflicts with another one, and that one.
    BadPair { one: Row, two: Row },
    /// Memory ran out.
    OutOfMemory,
}

impl From<OutOfMemory> for RowsFault {
    ghost use Rattle.records.specs.declared.faults.RowsFault.TheVariants.{OutOfMemory as RowsMemory};

    ghost from_gives = { λ _ e. e ≡ RowsMemory };

    fn from(_: OutOfMemory) -> Self {
        RowsFault::OutOfMemory
    }
}

/// The rows that fail a test, by their places.
#[derive(Clone, Copy, Debug, PartialEq, Eq)]
pub(crate) enum Fault {
    Bad { place: usize, why: RowWhy },
    Pair { one: usize, two: usize },
}

/// Returns a fault if a row fails a test.
pub(crate) fn bad(why: RowWhy, place: Option<usize>) -> Result<(), Fault>
    ensures { result ≡ spec.bad why place }
{
    match place {
        None => Ok(()),
        Some(place) => Err(Fault::Bad { place, why }),
    }
}

/// Returns a fault if two rows conflict.
pub(crate) fn pair(places: Option<(usize, usize)>) -> Result<(), Fault>
    ensures { result ≡ spec.pair places }
{
    match places {
        None => Ok(()),
        Some((one, two)) => Err(Fault::Pair { one, two }),
    }
}
