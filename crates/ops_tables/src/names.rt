ghost use Rattle.std.specs.Prelude.{◌≡◌};
ghost use Rattle.ops_tables.specs.Names as spec;

use crate::Lost;

/// Returns true if the list contains this name.
pub fn has_name(names: &Lost, name: &[u8]) -> bool
    ensures { result ≡ spec.has_name names.now name.now }
{
    names.as_slice().iter().any(|n| n.bytes() == name)
}
