ghost use Rattle.std.specs.Prelude.{◌≡◌};
ghost use Rattle.desk_io.specs.Station as spec;

use std::marker::Model;

/// An airport, identified by the four characters of its ICAO location indicator.
#[derive(Clone, Copy, Debug, PartialEq, Eq)]
pub struct Station {
    characters: [u8; 4],
}

impl Model for Station {
    ghost use Rattle.std.specs.Prelude.{List, ℕ, IsTrue};
    ghost use Rattle.desk_io.specs.Station.{is_station};

    ghost Value = { List ℕ };

    ghost view = { λ s. s.characters };

    ghost invariant = { λ s. IsTrue (is_station s.characters) };

    ghost inverse = { λ bytes. record { characters = bytes } };
}

fn is_capital(b: u8) -> bool
    ensures { result ≡ spec.is_capital b }
{
    b'A' <= b && b <= b'Z'
}

fn is_capital_or_digit(b: u8) -> bool
    ensures { result ≡ spec.is_capital_or_digit b }
{
    is_capital(b) || b'0' <= b && b <= b'9'
}

impl Station {
    /// Reads four bytes: a capital letter, then three capital letters or digits. Returns None for anything else.
    pub fn read(bytes: &[u8]) -> Option<Station>
        ensures { result ≡ spec.station_of bytes.now }
    {
        let [a, b, c, d] = bytes else {
            return None;
        };
        if is_capital(*a)
            && is_capital_or_digit(*b)
            && is_capital_or_digit(*c)
            && is_capital_or_digit(*d)
        {
            Some(Station {
                characters: [*a, *b, *c, *d],
            })
        } else {
            None
        }
    }

    /// Returns the four characters.
    pub fn bytes(self) -> [u8; 4]
        ensures { result ≡ self }
    {
        self.characters
    }
}
