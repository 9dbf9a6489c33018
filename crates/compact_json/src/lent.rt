ghost use Rattle.std.specs.Prelude.{◌≡◌, Option, MatchOption, is_some, nat_le, option_map, option_and_then};
ghost use Rattle.serde_json.specs.Data.{Data, Items as DataItems, no_items, item};
ghost use Rattle.serde_json.specs.Events.{items_len};
ghost use Rattle.serde_json.specs.Find.{get, as_null, as_bool, as_number, as_u64, as_str, as_array, as_object};
ghost use Rattle.serde_json.specs.View.{view, items_view};
ghost use Rattle.compact_json.specs.Keys.{has_members};
ghost use Rattle.compact_json.specs.Elements.{data_at, items_left};

use crate::element::Element;
use crate::items::Items;
use serde_json::Value;

/// A borrowed JSON value, independent of its representation.
pub trait Json<'a>: Copy {
    /// An iterator over the items of a list.
    type Left: Copy;

    /// The JSON data of the value.
    ghost told: { Self → Data };

    /// The items that are left.
    ghost left: { Self.Left → DataItems };

    /// Returns the value at a key of an object.
    fn get(self, key: &str) -> Option<Self>
        ensures { option_map told result ≡ get key.now (told self) };

    /// Returns the string, if the value is one.
    fn as_str(self) -> Option<&'a str>
        ensures { option_map (λ t. t.now) result ≡ as_str (told self) };

    /// Returns the 64-bit natural number, if the value is one.
    fn as_u64(self) -> Option<u64>
        ensures { result ≡ option_and_then as_u64 (as_number (told self)) };

    /// Returns true if the value is null.
    fn is_null(self) -> bool
        ensures { result ≡ is_some (as_null (told self)) };

    /// Returns true if the value is an object.
    fn is_object(self) -> bool
        ensures { result ≡ is_some (as_object (told self)) };

    /// Returns true if the value is an object of exactly `count` members. A repeated key counts once.
    fn has_members(self, count: usize) -> bool
        ensures { result ≡ has_members count (told self) };

    /// Returns the items, if the value is a list.
    fn items(self) -> Option<Self::Left>
        ensures { option_map left result ≡ as_array (told self) };

    /// Returns the next item.
    fn next(items: &mut Self::Left) -> Option<Self>
        ensures { MatchOption result ((left items.old ≡ no_items) × (left items.new ≡ no_items))
            (λ e. left items.old ≡ item (told e) (left items.new)) };

    /// Returns true if at most `count` items are left.
    fn are_at_most(items: Self::Left, count: usize) -> bool
        ensures { result ≡ nat_le (items_len (left items)) count };
}

impl<'a> Json<'a> for Element<'a> {
    type Left = Items<'a>;

    ghost told = { data_at };

    ghost left = { items_left };

    fn get(self, key: &str) -> Option<Element<'a>> {
        Element::get(&self, key)
    }

    fn as_str(self) -> Option<&'a str> {
        Element::as_str(&self)
    }

    fn as_u64(self) -> Option<u64> {
        Element::as_u64(&self)
    }

    fn is_null(self) -> bool {
        Element::is_null(&self)
    }

    fn is_object(self) -> bool {
        Element::is_object(&self)
    }

    fn has_members(self, count: usize) -> bool {
        Element::has_members(&self, count)
    }

    fn items(self) -> Option<Items<'a>> {
        Element::items(&self)
    }

    fn next(items: &mut Items<'a>) -> Option<Element<'a>> {
        Items::next(items)
    }

    fn are_at_most(items: Items<'a>, count: usize) -> bool {
        Items::are_at_most(&items, count)
    }
}

impl<'a> Json<'a> for &'a Value {
    type Left = &'a [Value];

    ghost told = { λ v. view v.now };

    ghost left = { λ items. items_view items.now };

    fn get(self, key: &str) -> Option<&'a Value> {
        Value::get(self, key)
    }

    fn as_str(self) -> Option<&'a str> {
        Value::as_str(self)
    }

    fn as_u64(self) -> Option<u64> {
        Value::as_u64(self)
    }

    fn is_null(self) -> bool {
        Value::is_null(self)
    }

    fn is_object(self) -> bool {
        Value::is_object(self)
    }

    fn has_members(self, count: usize) -> bool {
        match Value::as_object(self) {
            Some(map) => map.len() == count,
            None => false,
        }
    }

    fn items(self) -> Option<&'a [Value]> {
        match Value::as_array(self) {
            Some(list) => Some(list.as_slice()),
            None => None,
        }
    }

    fn next(items: &mut &'a [Value]) -> Option<&'a Value> {
        match *items {
            [first, rest @ ..] => {
                *items = rest;
                Some(first)
            }
            [] => None,
        }
    }

    fn are_at_most(items: &'a [Value], count: usize) -> bool {
        items.len() <= count
    }
}
