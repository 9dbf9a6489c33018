ghost use Rattle.std.specs.Prelude.{◌≡◌, ◌≤◌, ◌+◌, length, IfOk, IsOk};

use crate::packed::Packed;
use desk_io::OutOfMemory;
use std::alloc::Global;
use std::marker::Model;

// Where the texts of a row are stored: inline if they fit in N bytes, otherwise in a box of M bytes. Each variant
// holds the row's other column too. Stored after the enum, that column would begin at a multiple of eight bytes.
#[derive(Drop)]
enum Place<T: Copy + Drop, const N: usize, const M: usize> {
    Here(Packed<N>, T),
    Away(Box<Packed<M>>, T),
}

/// Up to three texts of a row, and the row's other column. Short texts are stored inline, so that a row is small if
/// most texts are short. Long texts are stored in a box.
#[derive(Drop)]
pub(crate) struct RowTexts<T: Copy + Drop, const N: usize, const M: usize> {
    place: Place<T, N, M>,
}

impl<T: Copy + Drop, const N: usize, const M: usize> Model for RowTexts<T, N, M> {
    ghost use Rattle.std.specs.Prelude.{◌≤◌};
    ghost use Rattle.ops_tables.specs.Texts.{Texts, texts_at};

    ghost Value = { Texts T };

    ghost view = { λ t. texts_at t.place };

    // bounds the size of the box, so that the texts in it can be read
    ghost invariant = { λ t. M ≤ 80 };
}

impl<T: Copy + Drop, const N: usize, const M: usize> RowTexts<T, N, M> {
    /// Stores these texts and the other column. It allocates nothing if the texts fit in N bytes.
    pub(crate) fn of(
        alloc: Global,
        first: &[u8],
        second: &[u8],
        third: &[u8],
        rest: T,
    ) -> Result<RowTexts<T, N, M>, OutOfMemory>
        requires here { N ≤ 80 }
        requires away { M ≤ 80 }
        requires room { length first.now + length second.now + length third.now ≤ M }
        ensures value { IfOk result (λ t. t
            ≡ record { parts = record { first = first.now; second = second.now; third = third.now }; rest = rest }) }
        ensures short { length first.now + length second.now + length third.now ≤ N → IsOk result }
    {
        let place = if first.len() + second.len() + third.len() <= N {
            Place::Here(Packed::of(first, second, third), rest)
        } else {
            Place::Away(Box::new(alloc, Packed::of(first, second, third))?, rest)
        };
        Ok(RowTexts { place })
    }

    pub(crate) fn first(&self) -> &[u8]
        ensures { result.now ≡ self.now.parts.first }
    {
        match &self.place {
            Place::Here(texts, _) => texts.first(),
            Place::Away(texts, _) => texts.first(),
        }
    }

    pub(crate) fn second(&self) -> &[u8]
        ensures { result.now ≡ self.now.parts.second }
    {
        match &self.place {
            Place::Here(texts, _) => texts.second(),
            Place::Away(texts, _) => texts.second(),
        }
    }

    pub(crate) fn third(&self) -> &[u8]
        ensures { result.now ≡ self.now.parts.third }
    {
        match &self.place {
            Place::Here(texts, _) => texts.third(),
            Place::Away(texts, _) => texts.third(),
        }
    }

    pub(crate) fn rest(&self) -> T
        ensures { result ≡ self.now.rest }
    {
        match &self.place {
            Place::Here(_, rest) => *rest,
            Place::Away(_, rest) => *rest,
        }
    }
}
