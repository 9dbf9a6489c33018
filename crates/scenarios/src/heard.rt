use alerts::{Dropped, MemoryBell, Notice, NoticeKind};
use desk_io::{OutOfMemory, push_all};
use std::alloc::Global;

/// The bell at a place among those that were handed in, whether it stayed or was dropped.
pub fn bell_at<'a>(
    bells: &'a [MemoryBell],
    dropped: &'a [Dropped<MemoryBell>],
    place: usize,
) -> Option<&'a MemoryBell> {
    let mut before = 0usize;
    for gone in dropped {
        if gone.place == place as u64 {
            return Some(&gone.bell);
        }
        if gone.place < place as u64 {
            before = before.saturating_add(1);
        }
    }
    bells.get(place.saturating_sub(before))
}

fn word_of(kind: NoticeKind) -> &'static str {
    match kind {
        NoticeKind::Opened => "opened",
        NoticeKind::Changed => "changed",
        NoticeKind::Closed => "closed",
    }
}

fn push_notice(alloc: Global, text: &mut Vec<u8>, notice: &Notice) -> Result<(), OutOfMemory> {
    let release = notice.release.to_string(alloc)?;
    let version = notice.version.to_string(alloc)?;
    let desk = notice.desk.bytes();
    push_all(
        text,
        &[desk, b" ", release.as_bytes(), b" v", version.as_bytes()],
    )?;
    push_all(text, &[b" ", word_of(notice.kind).as_bytes(), b"\n"])
}

/// A line for each notice that a bell heard: the dispatcher, the release, the version, and the change of the alert.
pub fn heard_text(alloc: Global, bell: &MemoryBell) -> Result<Vec<u8>, OutOfMemory> {
    let mut text = Vec::new(alloc);
    for notice in bell.heard() {
        push_notice(alloc, &mut text, notice)?;
    }
    Ok(text)
}

fn push_pair(
    alloc: Global,
    text: &mut Vec<u8>,
    dropped: &Dropped<MemoryBell>,
) -> Result<(), OutOfMemory> {
    let place = dropped.place.to_string(alloc)?;
    let heard = dropped.heard.to_string(alloc)?;
    push_all(
        text,
        &[b"[", place.as_bytes(), b",", heard.as_bytes(), b"]"],
    )
}

/// The dropped bells as JSON: the place of each, and how many notices it heard.
pub fn dropped_text(
    alloc: Global,
    dropped: &[Dropped<MemoryBell>],
) -> Result<Vec<u8>, OutOfMemory> {
    let mut text = Vec::new(alloc);
    text.push(b'[')?;
    for gone in dropped {
        if text.len() > 1 {
            text.push(b',')?;
        }
        push_pair(alloc, &mut text, gone)?;
    }
    text.push(b']')?;
    Ok(text)
}
