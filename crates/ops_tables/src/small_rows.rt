ghost use Rattle.std.specs.Prelude.{◌≡◌, ◌≤◌, ◌+◌, length, IfOk, IsOk};

use crate::Role;
use crate::row_texts::RowTexts;
use desk_io::OutOfMemory;
use std::alloc::Global;
use std::marker::Model;

/// Two items of a type that may not be deferred together.
#[derive(Drop)]
pub struct ItemPair {
    // at most 8, 16 and 16 bytes of text; with 20 bytes inline a row takes 24
    row: RowTexts<(), 20, 40>,
}

impl Model for ItemPair {
    ghost use Rattle.ops_tables.specs.Rows.{ItemPair as Pair};

    ghost Value = { Pair };

    ghost view = { λ p. record { kind = p.row.parts.first; item = p.row.parts.second; other = p.row.parts.third } };
}

impl ItemPair {
    /// Makes a pair. It allocates nothing if the three names have at most 20 bytes in all.
    pub fn of(
        alloc: Global,
        kind: &[u8],
        item: &[u8],
        other: &[u8],
    ) -> Result<ItemPair, OutOfMemory>
        requires kind { length kind.now ≤ 8 }
        requires item { length item.now ≤ 16 }
        requires other { length other.now ≤ 16 }
        ensures value { IfOk result (λ p. p ≡ record { kind = kind.now; item = item.now; other = other.now }) }
        ensures short { length kind.now + length item.now + length other.now ≤ 20 → IsOk result }
    {
        Ok(ItemPair {
            row: RowTexts::of(alloc, kind, item, other, ())?,
        })
    }

    /// Returns the name of the type.
    pub fn kind(&self) -> &[u8]
        ensures { result.now ≡ self.now.kind }
    {
        self.row.first()
    }

    /// Returns the first item.
    pub fn item(&self) -> &[u8]
        ensures { result.now ≡ self.now.item }
    {
        self.row.second()
    }

    /// Returns the second item.
    pub fn other(&self) -> &[u8]
        ensures { result.now ≡ self.now.other }
    {
        self.row.third()
    }
}

/// A person: name, key and role. A request gives the name and the key.
#[derive(Drop)]
pub struct Actor {
    // at most 16 and 64 bytes of text; with 19 bytes inline a row takes 24
    row: RowTexts<Role, 19, 80>,
}

impl Model for Actor {
    ghost use Rattle.ops_tables.specs.Rows.{Actor as Person};

    ghost Value = { Person };

    ghost view = { λ a. record { name = a.row.parts.first; key = a.row.parts.second; role = a.row.rest } };
}

impl Actor {
    /// Makes a person. It allocates nothing if the name and the key have at most 19 bytes in all.
    pub fn of(alloc: Global, name: &[u8], key: &[u8], role: Role) -> Result<Actor, OutOfMemory>
        requires name { length name.now ≤ 16 }
        requires key { length key.now ≤ 64 }
        ensures value { IfOk result (λ a. a ≡ record { name = name.now; key = key.now; role = role }) }
        ensures short { length name.now + length key.now ≤ 19 → IsOk result }
    {
        Ok(Actor {
            row: RowTexts::of(alloc, name, key, b"", role)?,
        })
    }

    /// Returns the name.
    pub fn name(&self) -> &[u8]
        ensures { result.now ≡ self.now.name }
    {
        self.row.first()
    }

    /// Returns the key.
    pub fn key(&self) -> &[u8]
        ensures { result.now ≡ self.now.key }
    {
        self.row.second()
    }

    /// Returns the role.
    pub fn role(&self) -> Role
        ensures { result ≡ self.now.role }
    {
        self.row.rest()
    }
}

/// The hours of a captain as pilot in command in a type of aircraft (14 CFR 121.652).
#[derive(Drop)]
pub struct CaptainHours {
    // at most 16 and 8 bytes of text; with 13 bytes inline, and the hours at a multiple of four, a row takes 24
    row: RowTexts<u32, 13, 24>,
}

impl Model for CaptainHours {
    ghost use Rattle.ops_tables.specs.Rows.{CaptainHours as Hours};

    ghost Value = { Hours };

    ghost view = { λ h. record { captain = h.row.parts.first; kind = h.row.parts.second; hours = h.row.rest } };
}

impl CaptainHours {
    /// Makes a row. It allocates nothing if the two names have at most 13 bytes in all.
    pub fn of(
        alloc: Global,
        captain: &[u8],
        kind: &[u8],
        hours: u32,
    ) -> Result<CaptainHours, OutOfMemory>
        requires captain { length captain.now ≤ 16 }
        requires kind { length kind.now ≤ 8 }
        ensures value { IfOk result (λ h. h ≡ record { captain = captain.now; kind = kind.now; hours = hours }) }
        ensures short { length captain.now + length kind.now ≤ 13 → IsOk result }
    {
        Ok(CaptainHours {
            row: RowTexts::of(alloc, captain, kind, b"", hours)?,
        })
    }

    /// Returns the captain's name.
    pub fn captain(&self) -> &[u8]
        ensures { result.now ≡ self.now.captain }
    {
        self.row.first()
    }

    /// Returns the name of the type.
    pub fn kind(&self) -> &[u8]
        ensures { result.now ≡ self.now.kind }
    {
        self.row.second()
    }

    /// Returns the hours.
    pub fn hours(&self) -> u32
        ensures { result ≡ self.now.hours }
    {
        self.row.rest()
    }
}
