ghost use Rattle.std.specs.Prelude.{◌≤◌, IfSome};

use desk_io::OutOfMemory;
use hex::FromHexError;
use serde_json::{Error, Value};
use std::alloc::Global;
use std::str;

/// The data of a line, if it is JSON in UTF-8.
pub fn data_of(alloc: Global, line: &[u8]) -> Result<Option<Value>, OutOfMemory> {
    let Ok(text) = str::from_utf8(line) else {
        return Ok(None);
    };
    match Value::from_str(alloc, text) {
        Ok(value) => Ok(Some(value)),
        Err(error) => memory_or_none(&error),
    }
}

fn memory_or_none(error: &Error) -> Result<Option<Value>, OutOfMemory> {
    if error.is_memory() {
        Err(OutOfMemory)
    } else {
        Ok(None)
    }
}

pub fn has_key(value: &Value, key: &str) -> bool {
    value.get(key).is_some()
}

/// The string at a key.
pub fn text_at<'a>(value: &'a Value, key: &str) -> Option<&'a str> {
    match value.get(key) {
        Some(found) => found.as_str(),
        None => None,
    }
}

/// The whole number at a key, if it is at most the limit.
pub fn number_at(value: &Value, key: &str, limit: u64) -> Option<u64>
    ensures { IfSome result (λ n. n ≤ limit) }
{
    match value.get(key) {
        Some(found) => number_within(found, limit),
        None => None,
    }
}

/// The whole number in a value, if it is at most the limit.
pub fn number_within(value: &Value, limit: u64) -> Option<u64>
    ensures { IfSome result (λ n. n ≤ limit) }
{
    match value.as_u64() {
        Some(number) if number <= limit => Some(number),
        _ => None,
    }
}

/// The whole number at a key, if it fits into 32 bits.
pub fn small_number_at(value: &Value, key: &str) -> Option<u32> {
    match number_at(value, key, 4_294_967_295) {
        Some(number) => Some(number as u32),
        None => None,
    }
}

/// The boolean at a key.
pub fn truth_at(value: &Value, key: &str) -> Option<bool> {
    match value.get(key) {
        Some(found) => found.as_bool(),
        None => None,
    }
}

/// The items of the list at a key, or none if there is no list.
pub fn items_at<'a>(value: &'a Value, key: &str) -> &'a [Value] {
    match value.get(key) {
        Some(found) => match found.as_array() {
            Some(items) => items.as_slice(),
            None => &[],
        },
        None => &[],
    }
}

/// The bytes of the hexadecimal string at a key.
pub fn bytes_at(alloc: Global, value: &Value, key: &str) -> Result<Option<Vec<u8>>, OutOfMemory> {
    let Some(text) = text_at(value, key) else {
        return Ok(None);
    };
    match hex::decode(alloc, text) {
        Ok(bytes) => Ok(Some(bytes)),
        Err(FromHexError::OutOfMemory) => Err(OutOfMemory),
        Err(_) => Ok(None),
    }
}

/// Whether the value at a key, as JSON, is this text.
pub fn is_written(
    alloc: Global,
    value: &Value,
    key: &str,
    text: &str,
) -> Result<bool, OutOfMemory> {
    match value.get(key) {
        Some(wanted) => Ok(wanted.to_string(alloc)?.as_str() == text),
        None => Ok(false),
    }
}
