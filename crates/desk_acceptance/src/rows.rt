ghost use Rattle.records.specs.Bodies.{HasMoments};

use crate::copies::is_record_copied;
use crate::lines::rows_in;
use asks::{Done, Floor, KeptReply};
use deferrals::Deferral;
use desk_io::{OutOfMemory, Row};
use desk_time::{Minute, read_minute};
use plan::{Phase, Release, Revision, Signature};
use records::{KeptAlert, KeptReport, Meta, Record, RowFault, read_row, row_of};
use std::alloc::Global;
use std::test::Fail;

// Counters of a desk that keeps some replies of six persons no more; a report, a deferral, a release that is drafted
// and that its dispatcher signed, one that is ready with an amendment that waits, what is kept of a reply, and an
// alert.
const ROWS: &str =
    r#"0 0 {"events":319,"floors":{"C7":6,"C8":3,"D1":35,"D2":26,"F1":28,"M1":7},"next_deferral":6,"next_kept":181,"next_release":28,"next_report":61,"now":"2025-03-23T06:15Z","version":2}
1 45 {"received":"2025-03-19T14:38Z","text":"SPECI EINN 191339Z NIL"}
2 4 {"found":"2025-03-10T14:20Z","item":"34-1","tail":"N801DK"}
3 1 {"active":null,"holder":"D1","pending":{"attached":[{"report":2,"text":"TAF AMD EH3Y 121702Z 1216/1322 24010KT P6SM SKC"},{"report":1,"text":"TAF AMD EGLL 121701Z 1216/1322 24010KT 9999 NSC"},{"report":3,"text":"TAF AMD KJFK 121703Z 1216/1322 24010KT 9999 NSC"}],"captain":null,"dispatcher":{"actor":"D1","at":"2025-03-12T17:03Z","digest":"1dc7a9717bb8a66958d877eda5fe025b96205eb73a930072cef96314b4003d19"},"hours":null,"number":1,"plan":{"captain":"C7","flight":"DK723","kind":"flag","legs":[{"alternates":[{"fuel":500,"minutes":63,"station":"KJFK"}],"burn":5000,"eta":"2025-03-13T01:41Z","etd":"2025-03-12T19:01Z","extra":0,"from":"EH3Y","minimum":13053,"minutes":394,"onboard":14053,"takeoff_alternate":{"minutes":75,"station":"EGLL"},"to":"EGLL"}],"tail":"N2-X"},"prepared":true},"phase":"DRAFTED"}
3 23 {"active":{"attached":[{"report":26,"text":"TAF AMD CLNX 010248Z 0102/0208 24010KT P6SM SKC"},{"report":41,"text":"TAF AMD EGLL 011258Z 0111/0217 24010KT P6SM BKN030"}],"captain":{"actor":"C7","at":"2025-04-01T12:45Z","digest":"85021cf1a6b3c40cb4d3eb90d54a31fd1d6a32a31465abbbd2fe3444a5ac6576"},"dispatcher":{"actor":"D1","at":"2025-04-01T12:42Z","digest":"85021cf1a6b3c40cb4d3eb90d54a31fd1d6a32a31465abbbd2fe3444a5ac6576"},"hours":250,"number":1,"plan":{"captain":"C7","flight":"DK105","kind":"domestic","legs":[{"alternates":[],"burn":12000,"eta":"2025-04-01T19:49Z","etd":"2025-04-01T13:09Z","extra":0,"from":"CLNX","minimum":17000,"minutes":399,"onboard":17000,"takeoff_alternate":null,"to":"EGLL"}],"tail":"N4"},"prepared":true},"holder":"D1","pending":{"attached":[],"captain":null,"dispatcher":null,"hours":null,"number":2,"plan":{"captain":"C7","flight":"DK105","kind":"domestic","legs":[{"alternates":[],"burn":12000,"eta":"2025-04-01T19:49Z","etd":"2025-04-01T13:09Z","extra":0,"from":"CLNX","minimum":17000,"minutes":399,"onboard":17000,"takeoff_alternate":null,"to":"EGLL"}],"tail":"N4"},"prepared":false},"phase":"READY 1"}
4 145 {"actor":"D1","at":"2025-03-19T15:41Z","digest":"c783651c88604e092cdcba85703f1f96cea890bba87f39102b378d6ac7752b58","number":84,"reply":{"done":{"digest":"3fb5c4881f1f439f93cc5cdecc4101a0dd5965358d078afdd19885ec4d899f4e","release":23,"revision":2}}}
5 23 {"acknowledged":true,"ever":["121.625/1/1","121.625/1/2","DESK-LATE-OFF/1/0"],"failing":["121.625/1/2"],"opened":"2025-04-01T12:50Z","version":6}"#;

fn is_at(text: &[u8], at: Minute) -> bool {
    read_minute(text) == Some(at)
}

// Whether a digest begins with these bytes.
fn begins(digest: &[u8; 32], front: [u8; 4]) -> bool {
    digest.starts_with(&front)
}

fn is_meta(meta: &Meta) -> bool {
    let counters = &meta.counters;
    let next = [
        counters.next_report,
        counters.next_deferral,
        counters.next_release,
        counters.next_kept,
    ];
    is_at(b"2025-03-23T06:15Z", meta.moment)
        && counters.events == 319
        && next == [61, 6, 28, 181]
        && has_floors(meta)
}

fn is_floor(floor: &Floor, actor: &[u8], number: u64) -> bool {
    floor.actor.bytes() == actor && floor.number == number
}

fn has_floors(meta: &Meta) -> bool {
    match meta.floors.as_slice() {
        [first, .., last] => is_floor(first, b"C7", 6) && is_floor(last, b"M1", 7),
        _ => false,
    }
}

fn is_report(report: &KeptReport) -> bool {
    report.id == 45
        && is_at(b"2025-03-19T14:38Z", report.received)
        && report.text.bytes() == b"SPECI EINN 191339Z NIL".as_slice()
}

fn is_deferral(deferral: &Deferral) -> bool {
    deferral.id == 4
        && deferral.tail.bytes() == b"N801DK".as_slice()
        && deferral.item.bytes() == b"34-1".as_slice()
        && is_at(b"2025-03-10T14:20Z", deferral.found)
}

fn is_signed(signature: &Option<Signature>, actor: &[u8], at: &[u8], front: [u8; 4]) -> bool {
    match signature {
        None => false,
        Some(s) => s.actor.bytes() == actor && is_at(at, s.at) && begins(&s.digest, front),
    }
}

fn has_numbers(revision: &Revision, number: u64, prepared: bool, reports: &[u64]) -> bool {
    let attached = revision.attached.as_slice();
    revision.number == number
        && revision.prepared == prepared
        && attached.len() == reports.len()
        && attached
            .iter()
            .zip(reports)
            .all(|(a, report)| a.report == *report)
}

fn is_flight(revision: &Revision, flight: &[u8], tail: &[u8]) -> bool {
    revision.plan.flight.bytes() == flight
        && revision.plan.tail.bytes() == tail
        && revision.plan.captain.bytes() == b"C7".as_slice()
        && revision.plan.legs.as_slice().len() == 1
}

fn is_draft(revision: &Revision) -> bool {
    let front = [0x1d, 0xc7, 0xa9, 0x71];
    has_numbers(revision, 1, true, &[2, 1, 3])
        && is_flight(revision, b"DK723", b"N2-X")
        && revision.captain.is_none()
        && revision.hours.is_none()
        && is_signed(&revision.dispatcher, b"D1", b"2025-03-12T17:03Z", front)
}

fn is_flown_by(revision: &Revision) -> bool {
    let front = [0x85, 0x02, 0x1c, 0xf1];
    has_numbers(revision, 1, true, &[26, 41])
        && is_flight(revision, b"DK105", b"N4")
        && revision.hours == Some(250)
        && is_signed(&revision.captain, b"C7", b"2025-04-01T12:45Z", front)
        && is_signed(&revision.dispatcher, b"D1", b"2025-04-01T12:42Z", front)
}

fn is_amendment(revision: &Revision) -> bool {
    has_numbers(revision, 2, false, &[])
        && is_flight(revision, b"DK105", b"N4")
        && revision.captain.is_none()
        && revision.hours.is_none()
        && revision.dispatcher.is_none()
}

fn is_release(release: &Release) -> bool {
    release.holder.bytes() == b"D1".as_slice()
        && match (release.phase, &release.pending, &release.active) {
            (Phase::Drafted, Some(pending), None) => release.id == 1 && is_draft(pending),
            (Phase::Ready, Some(pending), Some(active)) => {
                release.id == 23 && is_amendment(pending) && is_flown_by(active)
            }
            _ => false,
        }
}

fn is_done(done: &Done) -> bool {
    match done {
        Done::Prepared {
            release,
            revision,
            digest,
        } => *release == 23 && *revision == 2 && begins(digest, [0x3f, 0xb5, 0xc4, 0x88]),
        _ => false,
    }
}

fn is_reply(kept: &KeptReply) -> bool {
    kept.id == 145
        && kept.actor.bytes() == b"D1".as_slice()
        && kept.number == 84
        && begins(&kept.digest, [0xc7, 0x83, 0x65, 0x1c])
        && is_at(b"2025-03-19T15:41Z", kept.at)
        && is_done(&kept.done)
}

fn is_alert(alert: &KeptAlert) -> bool {
    alert.release == 23
        && alert.version == 6
        && is_at(b"2025-04-01T12:50Z", alert.opened)
        && alert.failing.as_slice().len() == 1
        && alert.ever.as_slice().len() == 3
        && alert.acknowledged
}

// Whether a record says what its row here says.
fn says(record: &Record) -> bool {
    match record {
        Record::Meta(meta) => is_meta(meta),
        Record::Report(report) => is_report(report),
        Record::Deferral(deferral) => is_deferral(deferral),
        Record::Release(release) => is_release(release),
        Record::Kept(kept) => is_reply(kept),
        Record::Alert(alert) => is_alert(alert),
    }
}

fn is_row_of(alloc: Global, row: &Row, record: &Record) -> Result<bool, OutOfMemory>
    requires { HasMoments record.now }
{
    let again = row_of(alloc, &record.lent())?;
    Ok(again.kind == row.kind && again.key == row.key && again.body.bytes() == row.body.bytes())
}

// Whether a record is what its row here says, copied so, and written as that row.
fn is_whole(alloc: Global, row: &Row, record: &Record) -> Result<bool, OutOfMemory>
    requires { HasMoments record.now }
{
    Ok(says(record) && is_record_copied(alloc, record)? && is_row_of(alloc, row, record)?)
}

// Whether a row is read as what it says, copied so, and written from that as it was.
#[tactic(auto, using(records::proofs::RowLaws::valid_moments))]
fn is_both_ways(alloc: Global, row: &Row) -> Result<bool, OutOfMemory> {
    match read_row(alloc, row) {
        Ok(record) => is_whole(alloc, row, &record),
        Err(RowFault::NotCanonical) => Ok(false),
        Err(RowFault::OutOfMemory) => Err(OutOfMemory),
    }
}

#[test]
fn a_row_of_each_kind_is_read_copied_and_written_again(rt: HostRuntime) -> Result<(), Fail> {
    let rows = rows_in(rt.alloc(), ROWS)?;
    assert!(rt; rows.len() == 7);
    for row in &rows {
        let (kind, key) = (row.kind, row.key);
        assert!(rt; is_both_ways(rt.alloc(), row)?, "{kind} {key}");
    }
    Ok(())
}
