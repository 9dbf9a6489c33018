ghost use Rattle.std.specs.Prelude.{◌≡◌, ◌<◌, ◌+◌, ◌∷◌, ◌==◌, All, drop, length};
ghost use Rattle.ops_tables.specs.Order.{picked};

use std::marker::Model;

/// The rows of one group of a table, in the order of the file. Contracts model it as the list of these rows.
#[derive(Drop)]
pub struct Group<'a, R> {
    rows: &'a [R],
    places: &'a [u32],
}

impl<'a, R> Model for Group<'a, R> {
    ghost use Rattle.std.specs.Prelude.{List, All, ◌<◌, length};
    ghost use Rattle.ops_tables.specs.Order.{picked};

    ghost Value = { List R };

    ghost view = { λ g. picked g.rows.now g.places.now };

    ghost invariant = { λ g. All (λ place. place < length g.rows.now) g.places.now };
}

fn row_at<'a, R>(rows: &'a [R], places: &[u32], place: usize) -> &'a R
    requires there { All (λ place. place < length rows.now) places.now }
    requires within { place < length places.now }
    ensures { drop place (picked rows.now places.now) ≡ result.now ∷ drop (place + 1) (picked rows.now places.now) }
{
    let at = places[place];
    &rows[at as usize]
}

impl<'a, R> Group<'a, R> {
    /// Borrows the rows at these indices.
    pub(crate) fn of(rows: &'a [R], places: &'a [u32]) -> Group<'a, R>
        requires { All (λ place. place < length rows.now) places.now }
        ensures { result ≡ picked rows.now places.now }
    {
        Group { rows, places }
    }

    /// Returns the number of rows.
    pub fn len(&self) -> usize
        ensures { result ≡ length self.now }
    {
        self.places.len()
    }

    /// Returns true if there are no rows.
    pub fn is_empty(&self) -> bool
        ensures { result ≡ (length self.now == 0) }
    {
        self.len() == 0
    }

    /// Returns the row at this index of the group.
    pub fn row(&self, place: usize) -> &'a R
        requires { place < length self.now }
        ensures { drop place self.now ≡ result.now ∷ drop (place + 1) self.now }
    {
        row_at(self.rows, self.places, place)
    }
}
