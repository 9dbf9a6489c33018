ghost use Rattle.std.specs.Prelude.{◌≡◌, ◌≤◌, IfOk, IfSome, option_and_then};
ghost use Rattle.std.specs.Option.{option_map};
ghost use Rattle.serde_json.specs.View.{view};
ghost use Rattle.serde_json.specs.Find.{get, as_number, as_u64};
ghost use Rattle.compact_json.specs.Elements.{data_in};
ghost use Rattle.desk_time.specs.Limits.{IsMoment};
ghost use Rattle.asks.specs.Fields as spec;

use compact_json::{Document, Json};
use desk_io::{OutOfMemory, Station};
use desk_time::{Minute, read_minute};
use serde_json::Value;
use std::alloc::Global;
use std::str;

/// Reads a line as JSON. Returns None if it isn't UTF-8 or isn't JSON.
pub fn data_of(alloc: Global, line: &[u8]) -> Result<Option<Value>, OutOfMemory>
    ensures { IfOk result (λ v. option_map view v ≡ spec.data_of line.now) }
{
    let Ok(text) = str::from_utf8(line) else {
        return Ok(None);
    };
    match Value::from_str(alloc, text) {
        Ok(value) => Ok(Some(value)),
        Err(error) => {
            if error.is_memory() {
                Err(OutOfMemory)
            } else {
                Ok(None)
            }
        }
    }
}

/// Reads a line as a JSON document. Returns None if it isn't UTF-8 or isn't JSON. The document takes a small multiple
/// of the line's memory, whatever the line contains.
pub fn document_of(alloc: Global, line: &[u8]) -> Result<Option<Document>, OutOfMemory>
    ensures { IfOk result (λ d. option_map data_in d ≡ spec.data_of line.now) }
{
    let Ok(text) = str::from_utf8(line) else {
        return Ok(None);
    };
    Document::of(alloc, text)
}

/// Returns the string at a key.
pub fn text_at<'a, V: Json<'a>>(key: &str, value: V) -> Option<&'a str>
    ensures { option_map (λ t. t.now) result ≡ spec.text_at key.now (V.told value) }
{
    match value.get(key) {
        Some(found) => found.as_str(),
        None => None,
    }
}

fn whole_number_at<'a, V: Json<'a>>(key: &str, value: V) -> Option<u64>
    ensures { result ≡ option_and_then as_u64 (option_and_then as_number (get key.now (V.told value))) }
{
    match value.get(key) {
        Some(found) => found.as_u64(),
        None => None,
    }
}

/// Returns the whole number at a key, if it is at most `limit`.
pub fn number_at<'a, V: Json<'a>>(key: &str, limit: u64, value: V) -> Option<u64>
    ensures value { result ≡ spec.number_at key.now limit (V.told value) }
    ensures bound { IfSome result (λ n. n ≤ limit) }
{
    match whole_number_at(key, value) {
        Some(number) if number <= limit => Some(number),
        _ => None,
    }
}

/// Returns the number at a key, at most 10^15: an id, or the number of a revision or an alert's version.
pub fn id_at<'a, V: Json<'a>>(key: &str, value: V) -> Option<u64>
    ensures { result ≡ spec.id_at key.now (V.told value) }
{
    number_at(key, 1_000_000_000_000_000, value)
}

/// Returns the 32-bit whole number at a key.
pub fn amount_at<'a, V: Json<'a>>(key: &str, value: V) -> Option<u32>
    ensures { result ≡ spec.amount_at key.now (V.told value) }
{
    Some(number_at(key, 4_294_967_295, value)? as u32)
}

/// Returns the string at a key, if it has at most 64 bytes.
pub fn short_at<'a, V: Json<'a>>(key: &str, value: V) -> Option<&'a str>
    ensures { option_map (λ t. t.now) result ≡ spec.short_at key.now (V.told value) }
{
    match text_at(key, value) {
        Some(text) if text.len() <= 64 => Some(text),
        _ => None,
    }
}

/// Returns the station at a key.
pub fn station_at<'a, V: Json<'a>>(key: &str, value: V) -> Option<Station>
    ensures { result ≡ spec.station_at key.now (V.told value) }
{
    Station::read(text_at(key, value)?.as_bytes())
}

/// Returns the moment at a key.
pub fn moment_at<'a, V: Json<'a>>(key: &str, value: V) -> Option<Minute>
    ensures value { result ≡ spec.moment_at key.now (V.told value) }
    ensures range { IfSome result IsMoment }
{
    read_minute(text_at(key, value)?.as_bytes())
}

/// Returns the items of the list at a key.
pub fn list_at<'a, V: Json<'a>>(key: &str, value: V) -> Option<V::Left>
    ensures { option_map V.left result ≡ spec.list_at key.now (V.told value) }
{
    match value.get(key) {
        Some(found) => found.items(),
        None => None,
    }
}

/// Returns true if the value is an object of exactly `count` members.
pub fn has_members<'a, V: Json<'a>>(count: usize, value: V) -> bool
    ensures { result ≡ spec.has_members count (V.told value) }
{
    value.has_members(count)
}
