ghost use Rattle.std.specs.Prelude.{◌≡◌, ◌≤◌, ◌++◌, length};
ghost use Rattle.pg_scram.specs.Keyed as spec;
ghost use Rattle.pg_scram.specs.Keyed.{block_of, filled, pad, stretch, xors};

use sha2::{Digest, Sha256};

// The bytes of a block of SHA-256.
const BLOCK: usize = 64;

// Combines each byte with the one at its place in `others`.
fn xor_into(bytes: &mut [u8], others: &[u8])
    requires { length bytes.old ≤ length others.now }
    ensures { bytes.new ≡ xors bytes.old others.now }
{
    for i in 0..bytes.len() {
        bytes[i] ^= others[i];
    }
}

// Combines each byte with this one.
fn mask(block: &mut [u8], byte: u8)
    ensures { block.new ≡ pad byte block.old }
{
    for i in 0..block.len() {
        block[i] ^= byte;
    }
}

// Returns the bytes, followed by zeros.
fn filled(bytes: &[u8]) -> [u8; 64]
    requires { length bytes.now ≤ 64 }
    ensures { result ≡ filled bytes.now }
{
    let mut block = [0u8; BLOCK];
    block[..bytes.len()].copy_from_slice(bytes);
    block
}

fn block_of(key: &[u8]) -> [u8; 64]
    ensures { result ≡ block_of key.now }
{
    if key.len() <= BLOCK {
        filled(key)
    } else {
        let digest = Sha256::digest(key);
        filled(&digest)
    }
}

// Returns the key's block with each byte combined with this one.
fn padded(key: &[u8], byte: u8) -> [u8; 64]
    ensures { result ≡ pad byte (block_of key.now) }
{
    let mut block = block_of(key);
    mask(&mut block, byte);
    block
}

// Returns the HMAC of a message in two parts.
#[tactic(auto, unfolding(crate::specs::Keyed::hmac))]
fn hmac_of_both(key: &[u8], first: &[u8], second: &[u8]) -> [u8; 32]
    ensures { result ≡ spec.hmac key.now (first.now ++ second.now) }
{
    let mut inner = Sha256::new();
    inner.update(&padded(key, 0x36));
    inner.update(first);
    inner.update(second);
    let inner = inner.finalize();
    let mut outer = Sha256::new();
    outer.update(&padded(key, 0x5c));
    outer.update(&inner);
    outer.finalize()
}

/// Returns the HMAC-SHA-256 of a message (RFC 2104).
pub fn hmac(key: &[u8], message: &[u8]) -> [u8; 32]
    ensures { result ≡ spec.hmac key.now message.now }
{
    hmac_of_both(key, message, &[])
}

/// Combines two digests byte by byte.
pub(crate) fn combined(one: [u8; 32], other: &[u8; 32]) -> [u8; 32]
    ensures { result ≡ xors one other.now }
{
    let mut bytes = one;
    xor_into(&mut bytes, other);
    bytes
}

/// Returns the first block of PBKDF2 with HMAC-SHA-256 (RFC 8018, 5.2). No round counts as one.
#[tactic(auto, unfolding(crate::specs::Keyed::salted))]
pub fn salted(password: &[u8], salt: &[u8], rounds: u32) -> [u8; 32]
    ensures { result ≡ spec.salted password.now salt.now rounds }
{
    let mut last = hmac_of_both(password, salt, &[0, 0, 0, 1]);
    let mut all = last;
    let mut left = rounds.saturating_sub(1);
    while left > 0 {
        let next = hmac(password, &last);
        let sum = combined(all, &next);
        last = next;
        all = sum;
        left -= 1;
    }
    all
}
