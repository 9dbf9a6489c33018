ghost use Rattle.std.specs.Prelude.{◌≡◌, ◌≤◌, ◌+◌, length, take, drop};
ghost use Rattle.ops_tables.specs.Parts as spec;

use std::marker::Model;

/// Overwrites the bytes from index `place` on.
pub(crate) fn write(over: &mut [u8], place: usize, part: &[u8])
    requires { place + length part.now ≤ length over.old }
    ensures { over.new ≡ spec.written over.old place part.now }
{
    over[place..place + part.len()].copy_from_slice(part);
}

// Returns N bytes that begin with these three texts.
fn joined<const N: usize>(first: &[u8], second: &[u8], third: &[u8]) -> [u8; N]
    requires { length first.now + length second.now + length third.now ≤ N }
    ensures first { take (length first.now) result ≡ first.now }
    ensures second { take (length second.now) (drop (length first.now) result) ≡ second.now }
    ensures third { take (length third.now) (drop (length first.now + length second.now) result) ≡ third.now }
{
    let mut bytes = [0; N];
    let over = &mut bytes[..];
    write(over, 0, first);
    write(over, first.len(), second);
    write(over, first.len() + second.len(), third);
    bytes
}

/// Three texts, stored inline in N bytes.
#[derive(Drop)]
pub(crate) struct Packed<const N: usize> {
    bytes: [u8; N],
    first: u8,
    second: u8,
    third: u8,
}

impl<const N: usize> Model for Packed<N> {
    ghost use Rattle.std.specs.Prelude.{◌+◌, ◌≤◌};
    ghost use Rattle.ops_tables.specs.Parts.{Parts, parts_in};

    ghost Value = { Parts };

    ghost view = { λ p. parts_in p.bytes p.first p.second p.third };

    ghost invariant = { λ p. p.first + p.second + p.third ≤ N };
}

impl<const N: usize> Packed<N> {
    /// Packs three texts of at most N bytes in all. Each length is stored in one byte, so N is at most 255.
    pub(crate) fn of(first: &[u8], second: &[u8], third: &[u8]) -> Packed<N>
        requires size { N ≤ 255 }
        requires room { length first.now + length second.now + length third.now ≤ N }
        ensures { result ≡ record { first = first.now; second = second.now; third = third.now } }
    {
        Packed {
            bytes: joined(first, second, third),
            first: first.len() as u8,
            second: second.len() as u8,
            third: third.len() as u8,
        }
    }

    pub(crate) fn first(&self) -> &[u8]
        ensures { result.now ≡ self.now.first }
    {
        &self.bytes[..usize::from(self.first)]
    }

    pub(crate) fn second(&self) -> &[u8]
        ensures { result.now ≡ self.now.second }
    {
        let start = usize::from(self.first);
        let bytes = &self.bytes[..];
        &bytes[start..start + usize::from(self.second)]
    }

    pub(crate) fn third(&self) -> &[u8]
        ensures { result.now ≡ self.now.third }
    {
        let start = usize::from(self.first) + usize::from(self.second);
        let bytes = &self.bytes[..];
        &bytes[start..start + usize::from(self.third)]
    }
}
