ghost use Rattle.std.specs.Prelude.{◌≡◌};
ghost use Rattle.hex.specs.Hex.{encode_lower};
ghost use Rattle.sha2.specs.Sha256.{sha256};

use sha2::{Digest, Sha256};

/// Returns the SHA-256 of a text (FIPS 180-4).
pub fn digest_of(text: &[u8]) -> [u8; 32]
    ensures { result ≡ sha256 text.now }
{
    let mut hasher = Sha256::new();
    hasher.update(text);
    hasher.finalize()
}

/// Returns the 64 lower-case hexadecimal digits of a digest. It allocates nothing.
pub fn digits_of(digest: &[u8; 32]) -> [u8; 64]
    ensures { result ≡ encode_lower digest.now }
{
    let mut digits = [0; 64];
    match hex::encode_to_slice(digest.as_slice(), &mut digits) {
        Ok(()) => digits,
        Err(_) => unreachable!(),
    }
}
