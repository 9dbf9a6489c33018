use crate::held::latest;
use codes::ReportFault;
use desk_time::{FIRST, LAST, Minute};
use facts::{Reports, fingerprint};
use small_airline::{DAY, admit, reports_of};
use std::alloc::Global;
use std::test::Fail;

const CLEAR: &[u8] = b"METAR KJFK 101651Z 10SM CLR";

const EARLY: &[u8] = b"TAF KJFK 101720Z 1018/1124 24010KT P6SM BKN030";

const KEPT: &[u8] = b"TAF KJFK 111120Z 1112/1218 24010KT P6SM BKN030";

// Reports of two stations from three days. Numbers 1 and 8 have the same text.
fn three_days(alloc: Global) -> Result<Reports, ReportFault> {
    let rows = [
        (1, CLEAR),
        (2, EARLY),
        (3, b"METAR KPHL 101654Z 9SM CLR"),
        (4, b"METAR KJFK 111651Z 8SM CLR"),
        (5, KEPT),
        (6, b"TAF KPHL 101120Z 1012/1118 24010KT P6SM BKN030"),
        (7, b"METAR KJFK 121651Z 7SM CLR"),
        (8, CLEAR),
        (9, b"METAR KJFK 111650Z 6SM CLR"),
        (10, b"TAF KJFK 121720Z 1218/1324 24010KT P6SM BKN030"),
    ];
    reports_of(alloc, &rows)
}

fn have_ids(reports: &Reports, ids: &[u64]) -> bool {
    let held = reports.as_slice();
    held.len() == ids.len() && held.iter().zip(ids).all(|(report, id)| report.id == *id)
}

// Whether so many went, and which are left.
fn leaves(reports: &mut Reports, before: Minute, keep: &[u64], went: u64, left: &[u64]) -> bool {
    reports.sweep(before, keep) == went && have_ids(reports, left)
}

fn have_latest(reports: &Reports) -> bool {
    latest(reports, b"KJFK") == Some((Some(7), Some(10)))
        && latest(reports, b"KPHL") == Some((Some(3), Some(6)))
        && latest(reports, b"KBOS") == Some((None, None))
}

// 2025-03-11 16:51, the moment of number 4.
const BEFORE: Minute = DAY - 1440 + 1011;

fn is_swept(reports: &mut Reports) -> bool {
    leaves(reports, BEFORE, &[5, 8, 77], 3, &[3, 4, 5, 6, 7, 8, 10])
        && have_latest(reports)
        // The first of that text went, and the second is kept.
        && reports.same(CLEAR, DAY - 2880 + 1011) == Some(8)
        && reports.same(EARLY, DAY - 2880 + 1040) == None
        && reports.same(KEPT, DAY - 1440 + 680) == Some(5)
}

// What went comes again, under the next number.
fn comes_again(alloc: Global, reports: &mut Reports) -> Result<bool, ReportFault> {
    admit(alloc, reports, 11, EARLY)?;
    Ok(
        have_ids(reports, &[3, 4, 5, 6, 7, 8, 10, 11])
            && have_latest(reports)
            && reports.same(EARLY, DAY - 2880 + 1040) == Some(11),
    )
}

// The latest of each station stay at any moment.
fn leaves_the_latest(reports: &mut Reports) -> bool {
    leaves(reports, LAST, &[], 4, &[3, 6, 7, 10])
        && have_latest(reports)
        && reports.same(CLEAR, DAY - 2880 + 1011) == None
}

#[test]
fn old_reports_are_swept_away(rt: HostRuntime) -> Result<(), Fail> {
    let alloc = rt.alloc();
    let mut reports = three_days(alloc)?;
    assert!(rt; have_latest(&reports) && reports.same(CLEAR, DAY - 2880 + 1011) == Some(1));
    assert!(rt; is_swept(&mut reports));
    assert!(rt; comes_again(alloc, &mut reports)?);
    assert!(rt; leaves_the_latest(&mut reports));
    Ok(())
}

#[test]
fn numbers_to_keep_stand_in_any_order(rt: HostRuntime) -> Result<(), Fail> {
    let alloc = rt.alloc();
    let mut reports = three_days(alloc)?;
    assert!(rt;
        leaves(
            &mut reports,
            BEFORE,
            &[8, 77, 5, 8],
            3,
            &[3, 4, 5, 6, 7, 8, 10]
        )
    );
    assert!(rt; leaves(&mut reports, LAST, &[8, 4, 1], 1, &[3, 4, 6, 7, 8, 10]));
    Ok(())
}

#[test]
fn a_sweep_of_nothing_leaves_all(rt: HostRuntime) -> Result<(), Fail> {
    let alloc = rt.alloc();
    let mut none = Reports::new(alloc);
    assert!(rt; leaves(&mut none, LAST, &[1], 0, &[]) && none.is_empty());
    let mut reports = three_days(alloc)?;
    let all = [1, 2, 3, 4, 5, 6, 7, 8, 9, 10];
    assert!(rt; leaves(&mut reports, FIRST, &[], 0, &all) && have_latest(&reports));
    Ok(())
}

const ONE: &[u8] = b"METAR KJFK 121651Z 10SM CLR RMK ALAAAAHBANHALD";

const OTHER: &[u8] = b"METAR KJFK 121651Z 10SM CLR RMK DAAFCCAAMAAFAA";

fn are_found(reports: &Reports, one: Option<u64>, other: Option<u64>) -> bool {
    reports.same(ONE, DAY + 1011) == one && reports.same(OTHER, DAY + 1011) == other
}

#[test]
fn texts_of_one_moment_and_fingerprint_are_told_apart(rt: HostRuntime) -> Result<(), Fail> {
    let alloc = rt.alloc();
    assert!(rt; fingerprint(ONE) == fingerprint(OTHER));
    let mut reports = reports_of(alloc, &[(1, ONE), (2, OTHER), (3, ONE), (4, OTHER)])?;
    assert!(rt; are_found(&reports, Some(1), Some(2)));
    assert!(rt; leaves(&mut reports, LAST, &[3], 2, &[3, 4]));
    assert!(rt; are_found(&reports, Some(3), Some(4)));
    assert!(rt; leaves(&mut reports, LAST, &[], 1, &[4]));
    assert!(rt; are_found(&reports, None, Some(4)));
    Ok(())
}
