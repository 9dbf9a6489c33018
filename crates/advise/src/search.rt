ghost use Rattle.std.specs.Prelude.{◌≡◌, ◌+◌, ◌≤◌, length, fold};
ghost use Rattle.advise.specs.Search as spec;

/// What the rules find on the leg with some alternates.
#[derive(Clone, Copy)]
pub(crate) struct Verdict {
    /// No rule asks for an alternate, or for one more (14 CFR 121.619, 121.621).
    pub are_enough: bool,
    /// The weather at each alternate and the type of the aircraft allow it (14 CFR 121.625, 121.631).
    pub are_usable: bool,
    /// The fuel that the leg requires, in pounds.
    pub required: u64,
}

/// The places of some alternates among the choices, counted from 0.
#[derive(Clone, Copy)]
pub(crate) enum Places {
    Empty,
    One(usize),
    Two(usize, usize),
}

/// A legal list of alternates, and the fuel that the leg requires with it, in pounds.
#[derive(Clone, Copy)]
pub(crate) struct Offer {
    pub places: Places,
    pub required: u64,
}

impl Verdict {
    fn is_legal(self) -> bool
        ensures { result ≡ spec.is_legal self }
    {
        self.are_enough && self.are_usable
    }
}

// Returns the cheaper of two offers, and the first if they cost the same.
fn cheaper(best: Option<Offer>, offer: Offer) -> Option<Offer>
    ensures { result ≡ spec.cheaper best offer }
{
    match best {
        None => Some(offer),
        Some(first) => {
            if offer.required < first.required {
                Some(offer)
            } else {
                Some(first)
            }
        }
    }
}

// Goes on with one list, if it is legal.
fn with_list(best: Option<Offer>, is_legal: bool, places: Places, required: u64) -> Option<Offer>
    ensures { result ≡ fold spec.cheaper best (spec.offer_if is_legal places required) }
{
    if is_legal {
        cheaper(best, Offer { places, required })
    } else {
        best
    }
}

// Goes on with the lists of one alternate.
fn with_singles(mut best: Option<Offer>, alone: &[Verdict]) -> Option<Offer>
    ensures { result ≡ fold spec.cheaper best (spec.singles 0 alone.now) }
{
    for (i, verdict) in alone.iter().enumerate() {
        best = with_list(best, verdict.is_legal(), Places::One(i), verdict.required);
    }
    best
}

// Goes on with the lists of this alternate and a later one.
fn with_pairs_of(
    mut best: Option<Offer>,
    place: usize,
    first: Verdict,
    later: &[Verdict],
) -> Option<Offer>
    requires { place + 1 + length later.now ≤ usize.MAX }
    ensures { result ≡ fold spec.cheaper best (spec.pairs_of place first (place + 1) later.now) }
{
    for (i, second) in later.iter().enumerate() {
        let are_usable = first.are_usable && second.are_usable;
        let required = first.required.max(second.required);
        best = with_list(
            best,
            are_usable,
            Places::Two(place, place + 1 + i),
            required,
        );
    }
    best
}

// Goes on with the lists of two alternates.
fn with_pairs(mut best: Option<Offer>, alone: &[Verdict]) -> Option<Offer>
    ensures { result ≡ fold spec.cheaper best (spec.pairs 0 alone.now) }
{
    for (i, first) in alone.iter().enumerate() {
        best = with_pairs_of(best, i, *first, &alone[i + 1..]);
    }
    best
}

/// Returns the cheapest legal list, given the verdict on no alternate and that on each alternate alone. Of the lists
/// that cost the same it is one with the fewest alternates, and of those the first in order of places.
pub(crate) fn cheapest(empty: Verdict, alone: &[Verdict]) -> Option<Offer>
    ensures { result ≡ spec.cheapest (spec.offers empty alone.now) }
{
    let best = with_list(None, empty.is_legal(), Places::Empty, empty.required);
    with_pairs(with_singles(best, alone), alone)
}
