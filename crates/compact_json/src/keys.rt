ghost use Rattle.std.specs.Prelude.{◌≡◌, ◌==◌, Option, MatchOption, option_map, false};
ghost use Rattle.serde_json.specs.Data.{Data, no_members, member};
ghost use Rattle.serde_json.specs.Events.{members_len};
ghost use Rattle.compact_json.specs.Kept.{members_of};
ghost use Rattle.compact_json.specs.Keys.{is_below, is_past, past, first_key, is_below_all, lesser};
ghost use Rattle.compact_json.specs.Elements.{keys_left};

use crate::boxes::{after_box, content_of};
use crate::texts::text_of;

/// An iterator over the keys of an object, in byte order without duplicates. Each step makes one pass over the
/// object.
#[derive(Clone, Copy)]
pub struct Keys<'a> {
    pub(crate) members: &'a [u8],
    pub(crate) started: bool,
    pub(crate) last: &'a str,
}

fn is_below(one: &[u8], two: &[u8]) -> bool
    ensures { result ≡ is_below one.now two.now }
{
    one.cmp(two).is_lt()
}

fn is_past(started: bool, last: &str, key: &str) -> bool
    ensures { result ≡ is_past started last.now key.now }
{
    !started || is_below(last.as_bytes(), key.as_bytes())
}

fn is_below_all(key: &str, least: Option<&str>) -> bool
    ensures { result ≡ is_below_all key.now (option_map (λ q. q.now) least.entry) }
{
    match least {
        Some(least) => is_below(key.as_bytes(), least.as_bytes()),
        None => true,
    }
}

// Returns the lesser of a box's key and the least key found so far, among the keys after the last one.
fn lesser<'a>(
    started: bool,
    last: &str,
    content: &'a [u8],
    least: Option<&'a str>,
) -> Option<&'a str>
    ensures { option_map (λ q. q.now) result
        ≡ lesser started last.now content.now (option_map (λ q. q.now) least.entry) }
{
    match text_of(content) {
        Some(key) if is_past(started, last, key) && is_below_all(key, least) => Some(key),
        _ => least,
    }
}

// Returns the least key after the last one.
fn next_key<'a>(members: &'a [u8], started: bool, last: &str) -> Option<&'a str>
    ensures { option_map (λ q. q.now) result ≡ first_key (past started last.now (members_of members.now)) }
{
    let mut left = members;
    let mut least = None;
    'members: while !left.is_empty() {
        least = lesser(started, last, content_of(left), least);
        left = after_box(after_box(left));
    }
    least
}

/// Starts an iterator over the keys of an object.
#[tactic(auto, using(crate::proofs::KeyLaws::past_none))]
pub(crate) fn keys_of(members: &[u8]) -> Keys<'_>
    ensures { keys_left result ≡ members_of members.now }
{
    Keys {
        members,
        started: false,
        last: "",
    }
}

impl<'a> Keys<'a> {
    /// Returns the next key.
    pub fn next(&mut self) -> Option<&'a str>
        ensures { MatchOption result ((keys_left self.old ≡ no_members) × (keys_left self.new ≡ no_members))
            (λ k. (d : Data) × (keys_left self.old ≡ member k.now d (keys_left self.new))) }
    {
        let key = next_key(self.members, self.started, self.last)?;
        self.started = true;
        self.last = key;
        Some(key)
    }

    /// Returns true if exactly `count` keys are left.
    pub(crate) fn has_count(&self, count: usize) -> bool
        ensures { result ≡ (members_len (keys_left self.now) == count) }
    {
        let mut left = *self;
        let mut seen = 0;
        'keys: while let Some(_) = left.next() {
            if seen == count {
                return false;
            }
            seen += 1;
        }
        seen == count
    }
}
