ghost use Rattle.std.specs.Prelude.{◌≡◌, map, length, IfErr};
ghost use Rattle.records.specs.Faults as spec;
ghost use Rattle.records.specs.Marks.{marks_of, IsIndex};

use crate::alone::{first_orphan, lacks_meta};
use crate::counters::ahead_of;
use crate::faults::{Fault, RowWhy, bad, pair};
use crate::limits::over_limit;
use crate::marks::{Firsts, Marks};
use crate::pairs::bad_pair;
use crate::record::Record;

/// Tests whether records fit together. Otherwise returns the first test that fails, and where.
#[tactic(auto, unfolding(crate::specs::Faults::fit))]
pub(crate) fn fit(records: &[Record], marks: &[Marks], firsts: &Firsts) -> Result<(), Fault>
    requires same { marks.now ≡ map marks_of records.now }
    requires index { IsIndex firsts.now.entries (map marks_of records.now) }
    ensures value { result ≡ spec.fit records.now }
    ensures bound { IfErr result (spec.IsWithin (length records.now)) }
{
    bad(RowWhy::NoMeta, lacks_meta(records))?;
    bad(RowWhy::OverLimit, over_limit(records))?;
    bad(RowWhy::Orphan, first_orphan(records, firsts))?;
    pair(bad_pair(records, marks, firsts))?;
    pair(ahead_of(records))
}
