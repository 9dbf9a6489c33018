ghost use Rattle.std.specs.Prelude.{◌≡◌};
ghost use Rattle.std.specs.List.{list_any, slice_split};
ghost use Rattle.std.specs.Str.{bytes_eq};
ghost use Rattle.ops_tables.specs.Names as spec;

use desk_io::Text;
use std::marker::Model;

/// The capabilities of a type: the text of its row, in which a space separates names. Contracts model it as the list
/// of the names.
#[derive(Debug, Drop)]
pub struct Capabilities {
    text: Text,
}

impl Model for Capabilities {
    ghost use Rattle.std.specs.Prelude.{List, ℕ};
    ghost use Rattle.ops_tables.specs.Names.{names_of};

    ghost Value = { List (List ℕ) };

    ghost view = { λ c. names_of c.text };
}

// Returns true if one of the parts between single spaces is this name.
fn has_part(text: &[u8], name: &[u8]) -> bool
    ensures { result ≡ list_any (λ n. bytes_eq n name.now) (slice_split spec.is_blank text.now) }
{
    text.split(|b| *b == b' ').any(|part| part == name)
}

fn has_name_in(text: &[u8], name: &[u8]) -> bool
    ensures { result ≡ spec.has_name (spec.names_of text.now) name.now }
{
    !text.is_empty() && has_part(text, name)
}

impl Capabilities {
    /// Takes the text of a row, in which a space separates names.
    pub fn of(text: Text) -> Capabilities
        ensures { result ≡ spec.names_of text }
    {
        Capabilities { text }
    }

    /// Returns true if the name is one of the capabilities. It allocates nothing.
    pub fn has(&self, name: &[u8]) -> bool
        ensures { result ≡ spec.has_name self.now name.now }
    {
        has_name_in(self.text.bytes(), name)
    }
}
