ghost use Rattle.std.specs.Prelude.{◌≡◌, ◌==◌, ◌<◌, ◌≤◌, length, drop, map, None, Some, IfOk, IfSome, IsErrOf};
ghost use Rattle.std.specs.List.{concat, position};
ghost use Rattle.std.specs.Option.{option_map};
ghost use Rattle.std.specs.Str.{bytes_eq};
ghost use Rattle.std.specs.String.{string_bytes};
ghost use Rattle.pg_scram.specs.Exchange as spec;
ghost use Rattle.pg_scram.specs.declared.exchange.ScramFault.TheVariants.{OutOfMemory as ScramMemory, Unreadable};

use crate::keyed::{combined, hmac, salted};
use base64::DecodeAllocError;
use base64::engine::general_purpose::STANDARD;
use desk_io::{OutOfMemory, push_all};
use desk_time::read_number;
use sha2::{Digest, Sha256};
use std::alloc::{AllocError, Global};

// The fewest and the most rounds that the client accepts.
const LEAST_ROUNDS: u64 = 4_096;

const MOST_ROUNDS: u64 = 1_000_000;

/// Why a server's message got no answer.
#[derive(Clone, Copy, Debug, PartialEq, Eq)]
pub enum ScramFault {
    /// It is malformed, or asks for something that the client refuses.
    Unreadable,
    /// Memory ran out.
    OutOfMemory,
}

impl From<AllocError> for ScramFault {
    ghost from_gives = { λ _ e. e ≡ ScramMemory };

    fn from(_: AllocError) -> Self {
        ScramFault::OutOfMemory
    }
}

impl From<OutOfMemory> for ScramFault {
    ghost from_gives = { λ _ e. e ≡ ScramMemory };

    fn from(_: OutOfMemory) -> Self {
        ScramFault::OutOfMemory
    }
}

/// Who logs in. The user is a `saslname` of RFC 5802, in which `=2C` stands for a comma and `=3D` for `=`. The password
/// is taken byte by byte, so one beyond ASCII must be prepared (RFC 4013). The nonce is printable ASCII without a
/// comma, which nobody can predict.
#[derive(Clone, Copy)]
pub struct Login<'a> {
    pub user: &'a [u8],
    pub password: &'a [u8],
    pub nonce: &'a [u8],
}

/// The client's last message, and the server's last message that the client accepts.
#[derive(Drop)]
pub struct Answer {
    pub message: Vec<u8>,
    pub expected: Vec<u8>,
}

// What the server's first message asks.
#[derive(Clone, Copy)]
struct Challenge<'a> {
    nonce: &'a [u8],
    salt: &'a [u8],
    rounds: u32,
}

fn joined(alloc: Global, pieces: &[&[u8]]) -> Result<Vec<u8>, OutOfMemory>
    ensures { IfOk result (λ v. v.items ≡ concat (map (λ x. x.now) pieces.now)) }
{
    let mut out = Vec::new(alloc);
    push_all(&mut out, pieces)?;
    Ok(out)
}

#[tactic(auto, unfolding(crate::specs::Exchange::base64))]
fn base64_of(alloc: Global, bytes: &[u8]) -> Result<String, AllocError>
    ensures { IfOk result (λ text. string_bytes text ≡ spec.base64 bytes.now) }
{
    STANDARD.encode(alloc, bytes)
}

#[tactic(auto, unfolding(crate::specs::Exchange::of_base64))]
fn bytes_of(alloc: Global, text: &[u8]) -> Result<Vec<u8>, ScramFault>
    ensures ok { IfOk result (λ v. spec.of_base64 text.now ≡ Some v.items) }
    ensures err { IsErrOf result Unreadable → spec.of_base64 text.now ≡ None }
{
    match STANDARD.decode(alloc, text) {
        Ok(bytes) => Ok(bytes),
        Err(DecodeAllocError::OutOfMemory) => Err(ScramFault::OutOfMemory),
        Err(DecodeAllocError::DecodeError(_)) => Err(ScramFault::Unreadable),
    }
}

fn place_of_comma(text: &[u8]) -> Option<usize>
    ensures value { result ≡ position (λ b. b == 44) text.now }
    ensures within { IfSome result (λ at. at < length text.now) }
{
    text.iter().position(|b| *b == b',')
}

fn rest_from(text: &[u8], place: usize) -> &[u8]
    requires { place ≤ length text.now }
    ensures { result.now ≡ drop place text.now }
{
    &text[place..]
}

// Splits a text at its first comma.
fn cut(text: &[u8]) -> Option<(&[u8], &[u8])>
    ensures { option_map (λ halves. (halves.0.now, halves.1.now)) result ≡ spec.cut text.now }
{
    let place = place_of_comma(text)?;
    Some((&text[..place], rest_from(text, place + 1)))
}

// Returns the text after the name and `=`.
fn named(name: u8, text: &[u8]) -> Option<&[u8]>
    ensures { option_map (λ value. value.now) result ≡ spec.named name text.now }
{
    let [first, second, value @ ..] = text else {
        return None;
    };
    if *first == name && *second == b'=' {
        Some(value)
    } else {
        None
    }
}

fn field(name: u8, text: &[u8]) -> Option<(&[u8], &[u8])>
    ensures { option_map (λ halves. (halves.0.now, halves.1.now)) result ≡ spec.field name text.now }
{
    cut(named(name, text)?)
}

fn before_comma(text: &[u8]) -> &[u8]
    ensures { result.now ≡ spec.before_comma text.now (spec.cut text.now) }
{
    match cut(text) {
        None => text,
        Some((front, _)) => front,
    }
}

fn last_field(name: u8, text: &[u8]) -> Option<&[u8]>
    ensures { option_map (λ value. value.now) result ≡ spec.last_field name text.now }
{
    Some(before_comma(named(name, text)?))
}

fn is_fit(nonce: &[u8], both: &[u8], rounds: u64) -> bool
    ensures { result ≡ spec.is_fit nonce.now both.now rounds }
{
    both.starts_with(nonce) && nonce.len() < both.len() && rounds >= LEAST_ROUNDS
}

#[tactic(auto, unfolding(crate::specs::Exchange::challenge))]
fn read_challenge<'a>(nonce: &[u8], first: &'a [u8]) -> Option<Challenge<'a>>
    ensures { option_map (λ c. record { nonce = c.nonce.now; salt = c.salt.now; rounds = c.rounds }) result
        ≡ spec.challenge nonce.now first.now }
{
    let (both, rest) = field(b'r', first)?;
    let (salt, rest) = field(b's', rest)?;
    let rounds = read_number(MOST_ROUNDS, last_field(b'i', rest)?)?;
    if is_fit(nonce, both, rounds) {
        Some(Challenge {
            nonce: both,
            salt,
            rounds: rounds as u32,
        })
    } else {
        None
    }
}

fn bare(alloc: Global, login: Login<'_>) -> Result<Vec<u8>, OutOfMemory>
    ensures { IfOk result (λ v. v.items ≡ spec.bare login.entry.user.now login.entry.nonce.now) }
{
    joined(alloc, &[b"n=", login.user, b",r=", login.nonce])
}

/// Returns the client's first message (RFC 5802, 7).
pub fn client_first(alloc: Global, login: Login<'_>) -> Result<Vec<u8>, OutOfMemory>
    ensures { IfOk result (λ v. v.items ≡ spec.first_message login.entry.user.now login.entry.nonce.now) }
{
    let bare = bare(alloc, login)?;
    joined(alloc, &[b"n,,", &bare])
}

fn without_proof(alloc: Global, both: &[u8]) -> Result<Vec<u8>, OutOfMemory>
    ensures { IfOk result (λ v. v.items ≡ spec.without_proof both.now) }
{
    joined(alloc, &[b"c=biws,r=", both])
}

fn signed(
    alloc: Global,
    login: Login<'_>,
    first: &[u8],
    both: &[u8],
) -> Result<Vec<u8>, OutOfMemory>
    ensures { IfOk result (λ v. v.items ≡ spec.signed login.entry.user.now login.entry.nonce.now first.now both.now) }
{
    let bare = bare(alloc, login)?;
    let end = without_proof(alloc, both)?;
    joined(alloc, &[&bare, b",", first, b",", &end])
}

fn proof(key: &[u8; 32], text: &[u8]) -> [u8; 32]
    ensures { result ≡ spec.proof key.now text.now }
{
    let client_key = hmac(key, b"Client Key");
    let stored = Sha256::digest(&client_key);
    combined(client_key, &hmac(&stored, text))
}

fn final_message(
    alloc: Global,
    key: &[u8; 32],
    text: &[u8],
    both: &[u8],
) -> Result<Vec<u8>, ScramFault>
    ensures ok { IfOk result (λ v. v.items ≡ spec.final_message key.now text.now both.now) }
    ensures err { IsErrOf result Unreadable → ⊥ }
{
    let front = without_proof(alloc, both)?;
    let proof = base64_of(alloc, &proof(key, text))?;
    Ok(joined(alloc, &[&front, b",p=", proof.as_bytes()])?)
}

fn verifier(alloc: Global, key: &[u8; 32], text: &[u8]) -> Result<Vec<u8>, ScramFault>
    ensures ok { IfOk result (λ v. v.items ≡ spec.verifier key.now text.now) }
    ensures err { IsErrOf result Unreadable → ⊥ }
{
    let server_key = hmac(key, b"Server Key");
    let signature = base64_of(alloc, &hmac(&server_key, text))?;
    Ok(joined(alloc, &[b"v=", signature.as_bytes()])?)
}

fn replies_under(
    alloc: Global,
    key: &[u8; 32],
    text: &[u8],
    both: &[u8],
) -> Result<Answer, ScramFault>
    ensures ok { IfOk result (λ a. record { message = a.message.items; expected = a.expected.items }
        ≡ spec.replies_under key.now text.now both.now) }
    ensures err { IsErrOf result Unreadable → ⊥ }
{
    let message = final_message(alloc, key, text, both)?;
    let expected = verifier(alloc, key, text)?;
    Ok(Answer { message, expected })
}

/// Returns the client's last message, in answer to the server's first one, and the server's last message that the
/// client then accepts. The server's nonce must begin with the client's and be longer. The server must ask for 4,096 to
/// 1,000,000 rounds.
#[tactic(auto, unfolding(crate::specs::Exchange::answer_to))]
pub fn client_final(alloc: Global, login: Login<'_>, first: &[u8]) -> Result<Answer, ScramFault>
    ensures ok { IfOk result (λ a. spec.answer_to login.entry.user.now login.entry.password.now
        login.entry.nonce.now first.now ≡ Some (record { message = a.message.items; expected = a.expected.items })) }
    ensures err { IsErrOf result Unreadable
        → spec.answer_to login.entry.user.now login.entry.password.now login.entry.nonce.now first.now ≡ None }
{
    let Some(asked) = read_challenge(login.nonce, first) else {
        return Err(ScramFault::Unreadable);
    };
    let salt = bytes_of(alloc, asked.salt)?;
    let key = salted(login.password, &salt, asked.rounds);
    let text = signed(alloc, login, first, asked.nonce)?;
    replies_under(alloc, &key, &text, asked.nonce)
}

/// Whether the server's last message proves that the server knows the password's key.
pub fn is_verified(answer: &Answer, last: &[u8]) -> bool
    ensures { result ≡ bytes_eq last.now answer.now.expected.items }
{
    last == answer.expected.as_slice()
}
