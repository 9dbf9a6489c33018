ghost use Rattle.std.specs.Prelude.{◌≡◌, None, is_some, option_map, option_and_then};
ghost use Rattle.serde_json.specs.Find.{get, as_null, as_bool, as_number, as_u64, as_str, as_array, as_object};
ghost use Rattle.compact_json.specs.Kept.{items_of, members_of};
ghost use Rattle.compact_json.specs.Keys.{has_members};
ghost use Rattle.compact_json.specs.Elements.{data_at, items_left, keys_left};

use crate::boxes::{content_of, kind_of};
use crate::items::Items;
use crate::keys::{Keys, keys_of};
use crate::looks::{array_by, bool_by, is_null_by, object_by, str_by, whole_by};
use crate::members::member_at;

/// A value in a document, borrowed from the document.
#[derive(Clone, Copy)]
pub struct Element<'a> {
    pub(crate) bytes: &'a [u8],
}

impl<'a> Element<'a> {
    #[tactic(auto, using(crate::proofs::KindLaws::object_at))]
    fn object(&self) -> Option<&'a [u8]>
        ensures { option_map (λ s. members_of s.now) result ≡ as_object (data_at self.now) }
    {
        object_by(content_of(self.bytes), kind_of(self.bytes))
    }

    #[tactic(auto, using(crate::proofs::KindLaws::array_at))]
    fn array(&self) -> Option<&'a [u8]>
        ensures { option_map (λ s. items_of s.now) result ≡ as_array (data_at self.now) }
    {
        array_by(content_of(self.bytes), kind_of(self.bytes))
    }

    /// Returns the value at a key of an object.
    pub fn get(&self, key: &str) -> Option<Element<'a>>
        ensures { option_map data_at result ≡ get key.now (data_at self.now) }
    {
        match self.object() {
            Some(members) => member_at(key, members),
            None => None,
        }
    }

    /// Returns the string, if the value is one.
    #[tactic(auto, using(crate::proofs::KindLaws::str_at))]
    pub fn as_str(&self) -> Option<&'a str>
        ensures { option_map (λ t. t.now) result ≡ as_str (data_at self.now) }
    {
        str_by(content_of(self.bytes), kind_of(self.bytes))
    }

    /// Returns the 64-bit natural number, if the value is one.
    #[tactic(auto, using(crate::proofs::KindLaws::number_at))]
    pub fn as_u64(&self) -> Option<u64>
        ensures { result ≡ option_and_then as_u64 (as_number (data_at self.now)) }
    {
        whole_by(content_of(self.bytes), kind_of(self.bytes))
    }

    /// Returns the boolean, if the value is one.
    #[tactic(auto, using(crate::proofs::KindLaws::bool_at))]
    pub fn as_bool(&self) -> Option<bool>
        ensures { result ≡ as_bool (data_at self.now) }
    {
        bool_by(kind_of(self.bytes))
    }

    /// Returns true if the value is null.
    #[tactic(auto, using(crate::proofs::KindLaws::null_at))]
    pub fn is_null(&self) -> bool
        ensures { result ≡ is_some (as_null (data_at self.now)) }
    {
        is_null_by(content_of(self.bytes), kind_of(self.bytes))
    }

    /// Returns true if the value is an object.
    pub fn is_object(&self) -> bool
        ensures { result ≡ is_some (as_object (data_at self.now)) }
    {
        self.object().is_some()
    }

    /// Returns the items, if the value is a list.
    pub fn items(&self) -> Option<Items<'a>>
        ensures { option_map items_left result ≡ as_array (data_at self.now) }
    {
        match self.array() {
            Some(bytes) => Some(Items { bytes }),
            None => None,
        }
    }

    /// Returns the keys in byte order, if the value is an object.
    pub fn keys(&self) -> Option<Keys<'a>>
        ensures { option_map keys_left result ≡ as_object (data_at self.now) }
    {
        match self.object() {
            Some(members) => Some(keys_of(members)),
            None => None,
        }
    }

    /// Returns true if the value is an object of exactly `count` members. A repeated key counts once.
    pub fn has_members(&self, count: usize) -> bool
        ensures { result ≡ has_members count (data_at self.now) }
    {
        match self.keys() {
            Some(keys) => keys.has_count(count),
            None => false,
        }
    }
}
