// Test cases from RFC 8259, and from `serde_json` where the RFC leaves a choice.
use crate::{Document, Element, Items};
use desk_io::OutOfMemory;
use std::alloc::Global;
use std::str;

// Returns whether a text is JSON, and its value if it is a 64-bit natural number.
fn whole(alloc: Global, text: &str) -> Result<(bool, Option<u64>), OutOfMemory> {
    match Document::of(alloc, text)? {
        Some(document) => Ok((true, document.root().as_u64())),
        None => Ok((false, None)),
    }
}

#[test]
fn numbers_are_whole_where_64_bits_hold_them(rt: HostRuntime) {
    for (text, wanted) in [
        ("0", (true, Some(0))),
        ("18446744073709551615", (true, Some(u64::MAX))),
        ("18446744073709551616", (true, None)),
        ("-0", (true, None)),
        ("-7", (true, None)),
        ("7.0", (true, None)),
        ("1e308", (true, None)),
        ("1e999", (false, None)),
        ("[-1e999]", (false, None)),
        ("01", (false, None)),
        ("+1", (false, None)),
        (" 1 ", (true, Some(1))),
        ("1 2", (false, None)),
        ("", (false, None)),
    ] {
        assert!(rt; whole(rt.alloc(), text) == Ok(wanted));
    }
}

fn is_text(alloc: Global, text: &str, wanted: &str) -> Result<bool, OutOfMemory> {
    match Document::of(alloc, text)? {
        Some(document) => match document.root().as_str() {
            Some(said) => Ok(said == wanted),
            None => Ok(false),
        },
        None => Ok(false),
    }
}

#[test]
fn texts_lose_their_escapes(rt: HostRuntime) {
    for (text, wanted) in [
        ("\"\"", ""),
        ("\"\\\"\\\\\\/\\b\\f\\n\\r\\t\"", "\"\\/\u{8}\u{c}\n\r\t"),
        ("\"\\u00e9\\ud83d\\ude00\"", "é😀"),
        ("\"é😀\"", "é😀"),
    ] {
        assert!(rt; is_text(rt.alloc(), text, wanted) == Ok(true));
    }
    for text in ["\"\\ud83d\"", "\"\\ude00\"", "\"\\x\"", "\"", "\"\n\""] {
        assert!(rt; whole(rt.alloc(), text) == Ok((false, None)));
    }
}

fn number_at(key: &str, element: &Element<'_>) -> Option<u64> {
    element.get(key)?.as_u64()
}

fn has_last(element: &Element<'_>) -> bool {
    number_at("a", element) == Some(3)
        && number_at("", element) == Some(4)
        && number_at("c", element) == None
        && element.has_members(3)
        && !element.has_members(2)
        && !element.has_members(4)
}

fn are_in_order(element: &Element<'_>) -> bool {
    let Some(keys) = element.keys() else {
        return false;
    };
    let mut left = keys;
    left.next() == Some("")
        && left.next() == Some("a")
        && left.next() == Some("é")
        && left.next() == None
}

// A key that occurs twice, once with an escape, and keys that aren't in byte order.
const TWICE: &str = "{\"é\":1,\"a\":2,\"\":4,\"\\u0061\":3}";

fn finds_last(alloc: Global) -> Result<bool, OutOfMemory> {
    match Document::of(alloc, TWICE)? {
        Some(document) => Ok(has_last(&document.root()) && are_in_order(&document.root())),
        None => Ok(false),
    }
}

#[test]
fn the_last_of_a_key_counts(rt: HostRuntime) {
    assert!(rt; finds_last(rt.alloc()) == Ok(true));
}

// Returns `count` copies of one byte, between two texts.
fn many(
    alloc: Global,
    front: &[u8],
    byte: u8,
    count: usize,
    end: &[u8],
) -> Result<Vec<u8>, OutOfMemory> {
    let mut text = Vec::new(alloc);
    text.extend_from_slice(front)?;
    for _ in 0..count {
        text.push(byte)?;
    }
    text.extend_from_slice(end)?;
    Ok(text)
}

fn is_json(alloc: Global, bytes: &[u8]) -> Result<bool, OutOfMemory> {
    match str::from_utf8(bytes) {
        Ok(text) => Ok(Document::of(alloc, text)?.is_some()),
        Err(_) => Ok(false),
    }
}

fn nests(alloc: Global, depth: usize) -> Result<bool, OutOfMemory> {
    let opened = many(alloc, b"", b'[', depth, b"")?;
    let text = many(alloc, &opened, b']', depth, b"")?;
    is_json(alloc, &text)
}

#[test]
fn lists_nest_up_to_127(rt: HostRuntime) {
    for (depth, wanted) in [(1, true), (127, true), (128, false), (100_000, false)] {
        assert!(rt; nests(rt.alloc(), depth) == Ok(wanted));
    }
}

fn has_long_text(alloc: Global, count: usize) -> Result<bool, OutOfMemory> {
    let bytes = many(alloc, b"\"", b'x', count, b"\"")?;
    let Ok(text) = str::from_utf8(&bytes) else {
        return Ok(false);
    };
    match Document::of(alloc, text)? {
        Some(document) => Ok(is_long(&document.root(), count)),
        None => Ok(false),
    }
}

fn is_long(element: &Element<'_>, count: usize) -> bool {
    match element.as_str() {
        Some(text) => text.len() == count,
        None => false,
    }
}

#[test]
fn long_texts_are_kept_whole(rt: HostRuntime) {
    for count in [0, 1, 255, 256, 100_000] {
        assert!(rt; has_long_text(rt.alloc(), count) == Ok(true));
    }
}

const ITEMS: &str = "[null,[],{},true,false,[[1],2],\"\",{\"a\":{}}]";

fn has_eight(element: &Element<'_>) -> bool {
    match element.items() {
        Some(items) => items.are_at_most(8) && !items.are_at_most(7) && are_kinds(items),
        None => false,
    }
}

fn are_kinds(items: Items<'_>) -> bool {
    let mut left = items;
    let Some(first) = left.next() else {
        return false;
    };
    let Some(second) = left.next() else {
        return false;
    };
    let Some(third) = left.next() else {
        return false;
    };
    let Some(fourth) = left.next() else {
        return false;
    };
    first.is_null()
        && second.items().is_some()
        && third.is_object()
        && fourth.as_bool() == Some(true)
}

fn goes_over_items(alloc: Global) -> Result<bool, OutOfMemory> {
    match Document::of(alloc, ITEMS)? {
        Some(document) => Ok(has_eight(&document.root())),
        None => Ok(false),
    }
}

#[test]
fn items_come_in_order(rt: HostRuntime) {
    assert!(rt; goes_over_items(rt.alloc()) == Ok(true));
}
