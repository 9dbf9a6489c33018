ghost use Rattle.std.specs.Prelude.{◌≡◌, List, ℕ, Option};
ghost use Rattle.std.specs.Option.{option_copied};
ghost use Rattle.alerts.specs.Ringing as spec;
ghost use Rattle.alerts.specs.Ringing.{namesake};

/// Who sits at each desk, and so whose bells receive its notices.
pub trait Seating {
    ghost sitter_of: { Self → List ℕ → Option (List ℕ) };

    /// Returns the person who sits at a desk, if anybody does.
    fn sitter_of<'a>(&'a self, desk: &'a [u8]) -> Option<&'a [u8]>
        ensures { option_copied result ≡ sitter_of self.now desk.now };
}

/// Each dispatcher sits at his own desk.
#[derive(Clone, Copy, Debug)]
pub struct Namesakes;

impl Seating for Namesakes {
    ghost sitter_of = { λ _. namesake };

    fn sitter_of<'a>(&'a self, desk: &'a [u8]) -> Option<&'a [u8]> {
        Some(desk)
    }
}

/// Returns true if somebody sits there, and it is this person.
pub(crate) fn is_sitter(person: &[u8], sitter: Option<&[u8]>) -> bool
    ensures { result ≡ spec.is_sitter person.now (option_copied sitter.entry) }
{
    match sitter {
        None => false,
        Some(sitter) => person == sitter,
    }
}
