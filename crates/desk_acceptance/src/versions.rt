use crate::lines::rows_in;
use desk_io::{OutOfMemory, Row};
use plan::Release;
use records::{Record, RowFault, read_old_row, read_row};
use std::alloc::Global;
use std::test::Fail;

// A release that is ready, with an amendment that waits, in the first version and in the second, and counters in both.
const ROWS: &str =
    r#"3 23 {"active":{"attached":[{"report":26,"text":"TAF AMD CLNX 010248Z 0102/0208 24010KT P6SM SKC"},{"report":41,"text":"TAF AMD EGLL 011258Z 0111/0217 24010KT P6SM BKN030"}],"captain":{"actor":"C7","at":"2025-04-01T12:45Z","digest":"85021cf1a6b3c40cb4d3eb90d54a31fd1d6a32a31465abbbd2fe3444a5ac6576"},"dispatcher":{"actor":"D1","at":"2025-04-01T12:42Z","digest":"85021cf1a6b3c40cb4d3eb90d54a31fd1d6a32a31465abbbd2fe3444a5ac6576"},"number":1,"plan":{"captain":"C7","flight":"DK105","kind":"domestic","legs":[{"alternates":[],"burn":12000,"eta":"2025-04-01T19:49Z","etd":"2025-04-01T13:09Z","extra":0,"from":"CLNX","minimum":17000,"minutes":399,"onboard":17000,"takeoff_alternate":null,"to":"EGLL"}],"tail":"N4"},"prepared":true},"holder":"D1","pending":{"attached":[],"captain":null,"dispatcher":null,"number":2,"plan":{"captain":"C7","flight":"DK105","kind":"domestic","legs":[{"alternates":[],"burn":12000,"eta":"2025-04-01T19:49Z","etd":"2025-04-01T13:09Z","extra":0,"from":"CLNX","minimum":17000,"minutes":399,"onboard":17000,"takeoff_alternate":null,"to":"EGLL"}],"tail":"N4"},"prepared":false},"phase":"READY 1"}
3 23 {"active":{"attached":[{"report":26,"text":"TAF AMD CLNX 010248Z 0102/0208 24010KT P6SM SKC"},{"report":41,"text":"TAF AMD EGLL 011258Z 0111/0217 24010KT P6SM BKN030"}],"captain":{"actor":"C7","at":"2025-04-01T12:45Z","digest":"85021cf1a6b3c40cb4d3eb90d54a31fd1d6a32a31465abbbd2fe3444a5ac6576"},"dispatcher":{"actor":"D1","at":"2025-04-01T12:42Z","digest":"85021cf1a6b3c40cb4d3eb90d54a31fd1d6a32a31465abbbd2fe3444a5ac6576"},"hours":250,"number":1,"plan":{"captain":"C7","flight":"DK105","kind":"domestic","legs":[{"alternates":[],"burn":12000,"eta":"2025-04-01T19:49Z","etd":"2025-04-01T13:09Z","extra":0,"from":"CLNX","minimum":17000,"minutes":399,"onboard":17000,"takeoff_alternate":null,"to":"EGLL"}],"tail":"N4"},"prepared":true},"holder":"D1","pending":{"attached":[],"captain":null,"dispatcher":null,"hours":null,"number":2,"plan":{"captain":"C7","flight":"DK105","kind":"domestic","legs":[{"alternates":[],"burn":12000,"eta":"2025-04-01T19:49Z","etd":"2025-04-01T13:09Z","extra":0,"from":"CLNX","minimum":17000,"minutes":399,"onboard":17000,"takeoff_alternate":null,"to":"EGLL"}],"tail":"N4"},"prepared":false},"phase":"READY 1"}
0 0 {"events":8,"floors":{},"next_deferral":9,"next_kept":9,"next_release":9,"next_report":9,"now":"2025-03-23T06:15Z","version":1}
0 0 {"events":8,"floors":{},"next_deferral":9,"next_kept":9,"next_release":9,"next_report":9,"now":"2025-03-23T06:15Z","version":2}"#;

// What a row is read as: nothing, counters, or a release with the hours of its active revision.
#[derive(Clone, Copy, Debug, PartialEq, Eq)]
enum Told {
    Nothing,
    Counters,
    Hours(Option<u32>),
    Other,
}

fn hours_of(release: &Release) -> Told {
    match &release.active {
        Some(revision) => Told::Hours(revision.hours),
        None => Told::Other,
    }
}

fn read_as(record: &Record) -> Told {
    match record {
        Record::Meta(_) => Told::Counters,
        Record::Release(release) => hours_of(release),
        _ => Told::Other,
    }
}

fn answer(read: Result<Record, RowFault>) -> Result<Told, OutOfMemory> {
    match read {
        Ok(record) => Ok(read_as(&record)),
        Err(RowFault::NotCanonical) => Ok(Told::Nothing),
        Err(RowFault::OutOfMemory) => Err(OutOfMemory),
    }
}

// What a row is read as in the first version, and in the second.
fn both(alloc: Global, row: &Row) -> Result<(Told, Told), OutOfMemory> {
    let first = answer(read_old_row(alloc, row))?;
    let second = answer(read_row(alloc, row))?;
    Ok((first, second))
}

#[test]
fn a_row_is_read_in_its_version(rt: HostRuntime) -> Result<(), Fail> {
    let rows = rows_in(rt.alloc(), ROWS)?;
    let wanted = [
        (Told::Hours(None), Told::Nothing),
        (Told::Nothing, Told::Hours(Some(250))),
        (Told::Counters, Told::Nothing),
        (Told::Nothing, Told::Counters),
    ];
    assert!(rt; rows.len() == 4);
    for (row, wanted) in rows.iter().zip(wanted) {
        assert!(rt; both(rt.alloc(), row)? == wanted, "{wanted:?}");
    }
    Ok(())
}
