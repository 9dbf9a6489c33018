ghost use Rattle.std.specs.Prelude.{◌≡◌, codes, IfOk, IfSome};
ghost use Rattle.std.specs.List.{list_all};
ghost use Rattle.serde_json.specs.Data.{put};
ghost use Rattle.serde_json.specs.View.{view, members_view};
ghost use Rattle.hex.specs.Hex.{encode_lower};
ghost use Rattle.asks.specs.Digests as spec;
ghost use Rattle.asks.specs.Digests.{digest_of, IsDigestAgain};

use crate::fields::text_at;
use crate::members::{Members, with_value};
use compact_json::Json;
use desk_io::OutOfMemory;
use hex::FromHex;
use serde_json::Value;
use std::alloc::Global;

fn is_small_digit(b: u8) -> bool
    ensures { result ≡ spec.is_small_digit b }
{
    b'0' <= b && b <= b'9' || b'a' <= b && b <= b'f'
}

fn all_small(text: &[u8]) -> bool
    ensures { result ≡ list_all spec.is_small_digit text.now }
{
    text.iter().all(|b| is_small_digit(*b))
}

fn are_digits(text: &[u8]) -> bool
    ensures { result ≡ spec.are_digits text.now }
{
    text.len() == 64 && all_small(text)
}

#[tactic(auto, unfolding(crate::specs::Digests::digest_of))]
fn digest_of(text: &[u8]) -> Option<[u8; 32]>
    ensures { result ≡ digest_of text.now }
{
    if are_digits(text) {
        <[u8; 32] as FromHex>::from_hex(text).ok()
    } else {
        None
    }
}

// Reads a digest of 64 lower-case hexadecimal digits.
#[tactic(auto, using(crate::proofs::DigestLaws::read_again))]
fn read_digest(text: &[u8]) -> Option<[u8; 32]>
    ensures value { result ≡ digest_of text.now }
    // The text is the only one that is read as this digest.
    ensures written { IfSome result (λ digest. encode_lower digest ≡ text.now) }
    ensures again { IsDigestAgain text.now result }
{
    digest_of(text)
}

/// Returns the digest at a key.
pub fn digest_at<'a, V: Json<'a>>(key: &str, value: V) -> Option<[u8; 32]>
    ensures { result ≡ spec.digest_at key.now (V.told value) }
{
    read_digest(text_at(key, value)?.as_bytes())
}

/// Makes a JSON string of a digest, 64 lower-case hexadecimal digits.
pub fn digest_value(alloc: Global, digest: &[u8; 32]) -> Result<Value, OutOfMemory>
    ensures { IfOk result (λ v. view v ≡ spec.digest_data digest.now) }
{
    Ok(Value::String(hex::encode(alloc, digest.as_slice())?))
}

/// Adds a digest at the key `digest`.
pub fn with_digest(
    alloc: Global,
    members: Members,
    digest: &[u8; 32],
) -> Result<Members, OutOfMemory>
    ensures { IfOk result (λ all. members_view all.entries ≡ put (codes "digest") (spec.digest_data digest.now)
        (members_view members.entries)) }
{
    let value = digest_value(alloc, digest)?;
    with_value(alloc, members, "digest", value)
}
