use codes::{Class, Groups, ReportFault, class_at};
use desk_io::{Copied, OutOfMemory};
use desk_time::Minute;
use facts::{Read, read_report};
use std::alloc::Global;
use std::test::Fail;

// 2025-03-12 17:30.
const RECEIPT: Minute = 29_030_010;

// Whether a text has so many groups and that canonical form.
fn is_cut(alloc: Global, text: &[u8], count: usize, canonical: &[u8]) -> Result<bool, OutOfMemory> {
    let groups = Groups::of(alloc, text)?;
    let joined = groups.canonical(alloc)?;
    Ok(groups.len() == count && joined.bytes() == canonical)
}

fn letter(class: Class) -> u8 {
    match class {
        Class::Unread => b'-',
        Class::Mark => b'M',
        Class::Wind => b'W',
        Class::Visibility => b'V',
        Class::Runway => b'R',
        Class::Weather => b'P',
        Class::Sky => b'S',
        Class::Temperature => b'T',
        Class::Altimeter => b'A',
    }
}

// Whether the groups of a text have these classes, a letter each.
fn has_classes(alloc: Global, text: &[u8], letters: &[u8]) -> Result<bool, OutOfMemory> {
    let groups = Groups::of(alloc, text)?;
    let mut found = Vec::new(alloc);
    for i in 0..groups.len() {
        found.push(letter(class_at(&groups, i + 1)))?;
    }
    Ok(found.as_slice() == letters)
}

#[test]
fn texts_are_cut_into_groups(rt: HostRuntime) -> Result<(), Fail> {
    for (text, count, canonical) in [
        (
            b" SPECI\tKJFK\r\n 121738Z=".as_slice(),
            3,
            b"SPECI KJFK 121738Z".as_slice(),
        ),
        (b"KJFK= 12==", 2, b"KJFK= 12=="),
        (b"KJFK =", 1, b"KJFK"),
        (b" = \n", 0, b""),
        (b"", 0, b""),
    ] {
        assert!(rt; is_cut(rt.alloc(), text, count, canonical)?);
    }
    let text =
        b"KJFK AUTO 24008G15KT 200V280 1 1/2SM R04L/2000FT -RAPL VV002 12/M02 A3012 CAVOK -RAPX";
    assert!(rt; has_classes(rt.alloc(), text, b"-MWWVVRPSTAS-")?);
    Ok(())
}

// Whether the copy of a forecast has all of its parts.
fn has_copy(alloc: Global, text: &[u8], parts: usize) -> Result<bool, ReportFault> {
    match read_report(alloc, text, RECEIPT)?.copy(alloc)? {
        Read::Taf(taf) => Ok(taf.parts.as_slice().len() == parts),
        Read::Metar(_) => Ok(false),
    }
}

#[test]
fn forecasts_are_copied(rt: HostRuntime) -> Result<(), Fail> {
    let text = b"TAF COR KJFK 121120Z 1212/1318 P6SM SCT040 TEMPO 1215/1217 2SM OVC008 \
        PROB30 TEMPO 1220/1222 1SM OVC005 BECMG 1302/1304 4800 BKN010 FM130600 10SM SKC";
    assert!(rt; has_copy(rt.alloc(), text, 5)?);
    Ok(())
}
