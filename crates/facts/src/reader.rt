ghost use Rattle.std.specs.Prelude.{◌≡◌, ◌≤◌, ℕ, IfOk, length};
ghost use Rattle.std.specs.Str.{IsUtf8};
ghost use Rattle.codes.specs.Answers.{Answers};
ghost use Rattle.codes.specs.Groups.{groups_of, canonical};
ghost use Rattle.facts.specs.Reading as spec;
ghost use Rattle.facts.specs.Reading.{
  reading,
  read_of,
  read_in,
  report_of,
  ReadHasMoments,
  IsRead,
};

use crate::report::{Read, Received};
use codes::{Group, Groups, REPORT_LIMIT, ReportFault, TOO_LONG, first_of};
use desk_time::{FIRST, LAST, Minute};
use std::alloc::Global;
use weather_reports::{metar_in, taf_in};

fn is_forecast(groups: &[Group<'_>]) -> bool
    ensures { result ≡ spec.is_forecast groups.now }
{
    first_of(groups) == b"TAF".as_slice()
}

/// Reads the groups of a report received at `receipt`: a TAF if the first group is `TAF`, otherwise a METAR or SPECI.
/// `Bad` names the first group that can't be read.
#[tactic(auto, unfolding(crate::specs::Reading::reading))]
pub fn read_groups(
    alloc: Global,
    groups: &[Group<'_>],
    receipt: Minute,
) -> Result<Read, ReportFault>
    requires count { length groups.now ≤ 2049 }
    requires low { FIRST ≤ receipt }
    requires high { receipt ≤ LAST }
    ensures value { Answers result (reading groups.now receipt) }
    ensures moments { IfOk result ReadHasMoments }
{
    if is_forecast(groups) {
        Ok(Read::Taf(taf_in(alloc, groups, receipt)?))
    } else {
        Ok(Read::Metar(metar_in(groups, receipt)?))
    }
}

/// Reads the text of a report received at `receipt`, as `read_groups` reads its groups. `Bad` names the first group
/// that can't be read. A text of more than 2,048 bytes is `TooLong` at group 0.
#[tactic(auto, unfolding(crate::specs::Reading::read_of))]
pub fn read_report(alloc: Global, text: &[u8], receipt: Minute) -> Result<Read, ReportFault>
    requires low { FIRST ≤ receipt }
    requires high { receipt ≤ LAST }
    ensures value { Answers result (read_of text.now receipt) }
    ensures moments { IfOk result ReadHasMoments }
{
    if text.len() > REPORT_LIMIT {
        return Err(ReportFault::Bad(TOO_LONG));
    }
    let groups = Groups::of(alloc, text)?;
    read_groups(alloc, groups.as_slice(), receipt)
}

/// Reads the text of a report received at `receipt`, and returns its canonical text and its reading. The canonical
/// text has the same reading. `Bad` is as in [`read_report`].
#[tactic(auto, unfolding(crate::specs::Reading::read_of))]
pub fn receive(alloc: Global, text: &[u8], receipt: Minute) -> Result<Received, ReportFault>
    requires low { FIRST ≤ receipt }
    requires high { receipt ≤ LAST }
    ensures value { Answers (read_in result) (read_of text.now receipt) }
    ensures text { IfOk result (λ r. r.text ≡ canonical (groups_of text.now)) }
    ensures utf8 { IsUtf8 text.now → IfOk result (λ r. IsUtf8 r.text) }
    ensures read { IfOk result (λ r. (id : ℕ) → IsRead (report_of id receipt r)) }
{
    if text.len() > REPORT_LIMIT {
        return Err(ReportFault::Bad(TOO_LONG));
    }
    let groups = Groups::of(alloc, text)?;
    let read = read_groups(alloc, groups.as_slice(), receipt)?;
    let text = groups.canonical(alloc)?;
    Ok(Received { text, read })
}
