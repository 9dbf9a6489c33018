ghost use Rattle.std.specs.Prelude.{◌≡◌, ◌≤◌, filter, map, IfOk};
ghost use Rattle.std.specs.List.{find};
ghost use Rattle.std.specs.Map.{keys_of};
ghost use Rattle.std.specs.Option.{option_copied};
ghost use Rattle.kept_replies.specs.Index as spec;
ghost use Rattle.kept_replies.specs.Index.{AreKeysOf, AreKeysUnder, entry_of, has_id, leads_to};
ghost use Rattle.kept_replies.specs.ByPerson.{keys_under};
ghost use Rattle.kept_replies.specs.Requests as asked;
ghost use Rattle.kept_replies.specs.Requests.{is_since};

use crate::by_person::ByPerson;
use asks::KeptReply;
use desk_io::{ById, Keys, OutOfMemory};
use desk_time::Minute;
use facts::fingerprint;
use std::alloc::Global;

/// Returns the key of a reply: the fingerprint of the person's name, the number and the id.
pub(crate) fn key_of(reply: &KeptReply) -> (u64, u64, u64)
    ensures { result ≡ spec.key_of reply.now }
{
    (fingerprint(reply.actor.bytes()), reply.number, reply.id)
}

fn is_under(mark: u64, number: u64, key: &(u64, u64, u64)) -> bool
    ensures { result ≡ spec.is_under mark number key.now }
{
    key.0 == mark && key.1 == number
}

// Returns the reply of this id if it is to this person.
fn named<'a>(kept: &'a ById<KeptReply>, id: u64, actor: &[u8]) -> Option<&'a KeptReply>
    ensures { option_copied result ≡ spec.named actor.now (find (has_id id) kept.now.list) }
{
    let reply = kept.get(id)?;
    if reply.actor.bytes() == actor {
        Some(reply)
    } else {
        None
    }
}

// Returns the first reply to this person among those of the keys. It stops at the first key with another fingerprint
// or number.
fn first_to<'a>(
    kept: &'a ById<KeptReply>,
    keys: &[((u64, u64, u64), ())],
    actor: &[u8],
    mark: u64,
    number: u64,
) -> Option<&'a KeptReply>
    ensures { option_copied result ≡ spec.first_to actor.now mark number kept.now.list (keys_of keys.now) }
{
    for pair in keys {
        let key = pair.0;
        if !is_under(mark, number, &key) {
            return None;
        }
        if let Some(reply) = named(kept, key.2, actor) {
            return Some(reply);
        }
    }
    None
}

/// Returns the kept reply to the request of this person and number, by binary search.
pub(crate) fn kept_at<'a>(
    kept: &'a ById<KeptReply>,
    requests: &ByPerson,
    actor: &[u8],
    number: u64,
) -> Option<&'a KeptReply>
    requires { AreKeysUnder kept.now.list (keys_under requests.now) }
    ensures { option_copied result ≡ asked.kept_at actor.now number kept.now.list }
{
    let _ = kept.as_slice();
    let mark = fingerprint(actor);
    let keys = requests.from(&(mark, number, 0));
    first_to(kept, keys, actor, mark, number)
}

/// Removes the replies to requests that were accepted before a moment.
pub(crate) fn keep_since(kept: &mut ById<KeptReply>, before: Minute)
    ensures list { kept.new.list ≡ filter (is_since before) kept.old.list }
    ensures room { kept.old.room ≤ kept.new.room }
{
    kept.retain(
        |reply: &KeptReply| -> bool
            ensures { result ≡ is_since before reply.now }
        { before <= reply.at },
    );
}

/// Removes the keys whose reply is gone.
pub(crate) fn keep_leading(set: &mut Keys<(u64, u64, u64)>, kept: &ById<KeptReply>)
    ensures keys { set.new.keys ≡ filter (leads_to kept.now.list) set.old.keys }
    ensures room { set.old.room ≤ set.new.room }
{
    set.retain(
        |entry: &((u64, u64, u64), ())| -> bool
            ensures { result ≡ leads_to kept.entry.now.list entry.now.0 }
        {
            let key = entry.0;
            kept.has(key.2)
        },
    );
}

fn listed_keys(alloc: Global, kept: &[KeptReply]) -> Result<Vec<((u64, u64, u64), ())>, OutOfMemory>
    ensures { IfOk result (λ keys. keys.items ≡ map entry_of kept.now) }
{
    let mut keys = Vec::with_capacity(alloc, kept.len())?;
    for reply in kept {
        keys.push((key_of(reply), ()))?;
    }
    Ok(keys)
}

// Returns the keys of replies, without duplicates.
fn all_keys(alloc: Global, kept: &[KeptReply]) -> Result<Keys<(u64, u64, u64)>, OutOfMemory>
    ensures { IfOk result (λ requests. AreKeysOf kept.now requests.keys) }
{
    let keys = listed_keys(alloc, kept)?;
    Ok(Keys::from_vec(keys))
}

/// Returns the keys of replies by person. They are sorted once, so each is added at the end of its set.
pub(crate) fn keys_by_person(alloc: Global, kept: &[KeptReply]) -> Result<ByPerson, OutOfMemory>
    ensures { IfOk result (λ requests. AreKeysUnder kept.now (keys_under requests)) }
{
    let keys = all_keys(alloc, kept)?;
    ByPerson::from_keys(alloc, keys.as_slice())
}
