use codes::ReportFault;
use desk_io::{OutOfMemory, Station};
use facts::{Reports, push_weather, push_weather_at};
use small_airline::{DAY, reports_of};
use std::alloc::Global;
use std::test::Fail;

// Reports of three stations, under numbers that rise with gaps.
fn held(alloc: Global) -> Result<Reports, ReportFault> {
    let rows = [
        (
            1,
            b"SPECI KJFK 121738Z 24012KT 4SM BR BKN015 11/09 A3008".as_slice(),
        ),
        (2, b"METAR KJFK 121651Z 10SM CLR"),
        (4, b"TAF KJFK 121720Z 1218/1324 24010KT P6SM BKN030"),
        (7, b"TAF KJFK 121720Z 1218/1324 24010KT P6SM BKN030"),
        (8, b"TAF EINN 121720Z NIL"),
    ];
    reports_of(alloc, &rows)
}

/// The numbers of the latest METAR and the latest TAF of a station.
pub fn latest(reports: &Reports, name: &[u8]) -> Option<(Option<u64>, Option<u64>)> {
    let station = Station::read(name)?;
    let metar = reports.latest_metar(station).map(|report| report.id);
    let taf = reports.latest_taf(station).map(|report| report.id);
    Some((metar, taf))
}

// Whether the weather lines of all stations are these.
fn has_weather(alloc: Global, reports: &Reports, lines: &[u8]) -> Result<bool, OutOfMemory> {
    let mut out = Vec::new(alloc);
    push_weather(&mut out, reports)?;
    Ok(out.as_slice() == lines)
}

// Whether the weather lines of one station are these.
fn has_weather_at(
    alloc: Global,
    reports: &Reports,
    station: Station,
    lines: &[u8],
) -> Result<bool, OutOfMemory> {
    let mut out = Vec::new(alloc);
    push_weather_at(&mut out, reports, station)?;
    Ok(out.as_slice() == lines)
}

const KENNEDY: &[u8] = b"KJFK METAR 1 2025-03-12T17:38Z ceiling 1500 vis 6437376 unread 0\n\
    KJFK TAF 7 2025-03-12T17:20Z 2025-03-12T18:00Z 2025-03-14T00:00Z parts 1\n";

const ALL: &[u8] = b"EINN TAF 8 2025-03-12T17:20Z 2025-03-12T17:20Z 2025-03-12T17:20Z NIL\n\
    KJFK METAR 1 2025-03-12T17:38Z ceiling 1500 vis 6437376 unread 0\n\
    KJFK TAF 7 2025-03-12T17:20Z 2025-03-12T18:00Z 2025-03-14T00:00Z parts 1\n";

#[test]
fn the_latest_moment_counts(rt: HostRuntime) -> Result<(), Fail> {
    let alloc = rt.alloc();
    assert!(rt; Reports::new(alloc).is_empty());
    let reports = held(alloc)?;
    assert!(rt; reports.len() == 5);
    assert!(rt; latest(&reports, b"KJFK") == Some((Some(1), Some(7))));
    assert!(rt; latest(&reports, b"EINN") == Some((None, Some(8))));
    assert!(rt; latest(&reports, b"KPHL") == Some((None, None)));
    let forecast = b"TAF KJFK 121720Z 1218/1324 24010KT P6SM BKN030";
    assert!(rt; reports.same(forecast, DAY + 1040) == Some(4));
    assert!(rt; reports.same(forecast, DAY + 1041) == None);
    assert!(rt; reports.same(b"TAF KJFK 121720Z", DAY + 1040) == None);
    assert!(rt; has_weather(alloc, &reports, ALL)?);
    let kennedy = Station::read(b"KJFK");
    assert!(rt; kennedy.is_some());
    if let Some(station) = kennedy {
        assert!(rt; has_weather_at(alloc, &reports, station, KENNEDY)?);
    }
    Ok(())
}
