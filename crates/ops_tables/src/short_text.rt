ghost use Rattle.std.specs.Prelude.{◌≡◌, ◌≤◌, length};

use std::marker::Model;

/// A text of at most N bytes, stored inline. Contracts model it as the list of its bytes.
#[derive(Debug, Drop)]
pub struct ShortText<const N: usize> {
    bytes: [u8; N],
    length: u8,
}

impl<const N: usize> Model for ShortText<N> {
    ghost use Rattle.std.specs.Prelude.{List, ℕ, ◌≤◌, take};

    ghost Value = { List ℕ };

    ghost view = { λ t. take t.length t.bytes };

    ghost invariant = { λ t. t.length ≤ N };
}

impl<const N: usize> ShortText<N> {
    /// Copies these bytes.
    pub fn of(text: &[u8]) -> ShortText<N>
        requires size { N ≤ 64 }
        requires room { length text.now ≤ N }
        ensures { result ≡ text.now }
    {
        let mut bytes = [0; N];
        bytes[..text.len()].copy_from_slice(text);
        ShortText {
            bytes,
            length: text.len() as u8,
        }
    }

    /// Returns the bytes.
    pub fn bytes(&self) -> &[u8]
        ensures { result.now ≡ self.now }
    {
        &self.bytes[..usize::from(self.length)]
    }
}
