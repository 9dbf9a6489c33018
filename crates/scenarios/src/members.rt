use crate::fault::CaseFault;
use desk_io::OutOfMemory;
use serde_json::{Error, Map, Value};
use std::alloc::Global;
use std::str;

/// The data of a text, if it is JSON in UTF-8.
pub fn data_of(alloc: Global, text: &[u8]) -> Result<Option<Value>, OutOfMemory> {
    let Ok(text) = str::from_utf8(text) else {
        return Ok(None);
    };
    match Value::from_str(alloc, text) {
        Ok(value) => Ok(Some(value)),
        Err(error) => memory_or_none(&error),
    }
}

fn memory_or_none(error: &Error) -> Result<Option<Value>, OutOfMemory> {
    if error.is_memory() {
        Err(OutOfMemory)
    } else {
        Ok(None)
    }
}

fn is_among(key: &str, keys: &[&str]) -> bool {
    keys.iter().any(|one| *one == key)
}

// The first key of an object that is in neither list.
fn first_unknown<'a>(
    members: &'a Map<String, Value>,
    known: &[&str],
    more: &[&str],
) -> Option<&'a str> {
    for (key, _) in members.iter() {
        if !is_among(key.as_str(), known) && !is_among(key.as_str(), more) {
            return Some(key.as_str());
        }
    }
    None
}

/// Checks that a value is an object whose keys are all in the two lists. A fault calls the value `named`.
pub fn check_keys<'a>(
    value: &'a Value,
    known: &[&str],
    more: &[&str],
    named: &'static str,
) -> Result<(), CaseFault<'a>> {
    let Some(members) = value.as_object() else {
        return Err(CaseFault::Unread(named));
    };
    match first_unknown(members, known, more) {
        Some(key) => Err(CaseFault::Unread(key)),
        None => Ok(()),
    }
}

/// The items of a list. A fault calls the value `named`.
pub fn items_of<'a>(
    value: &'a Value,
    named: &'static str,
) -> Result<&'a [Value], CaseFault<'static>> {
    match value.as_array() {
        Some(items) => Ok(items.as_slice()),
        None => Err(CaseFault::Unread(named)),
    }
}
