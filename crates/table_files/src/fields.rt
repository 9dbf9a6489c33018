ghost use Rattle.std.specs.Prelude.{◌≡◌, ◌≤◌, ℕ, Bool, IfSome, IfOk, IsTrue, length, nat_le, if◌then◌else◌, Some, None};
ghost use Rattle.std.specs.List.{list_all, slice_split};
ghost use Rattle.ops_tables.specs.Forms as form;
ghost use Rattle.ops_tables.specs.Names as names;
ghost use Rattle.table_files.specs.Fields as spec;

use desk_io::{OutOfMemory, Text};
use desk_time::{is_digit, read_number};
use ops_tables::{Capabilities, Category, Role};
use std::alloc::Global;

/// The characters that may be in a field of names.
#[derive(Clone, Copy, Debug)]
enum Class {
    /// Capital letters and digits.
    Name,
    /// Capital letters, digits and hyphens.
    Mark,
    /// Letters and digits.
    Person,
    /// Printable ASCII characters other than the space.
    Key,
}

fn is_of(class: Class, b: u8) -> bool
    ensures { result ≡ spec.is_of class b }
{
    let in_name = b'A' <= b && b <= b'Z' || is_digit(b);
    match class {
        Class::Name => in_name,
        Class::Mark => in_name || b == b'-',
        Class::Person => in_name || b'a' <= b && b <= b'z',
        Class::Key => b' ' < b && b < 127,
    }
}

fn all_of(class: Class, field: &[u8]) -> bool
    ensures { result ≡ list_all (spec.is_of class) field.now }
{
    for b in field {
        if !is_of(class, *b) {
            return false;
        }
    }
    true
}

fn has_length(field: &[u8], most: usize) -> bool
    ensures { result ≡ form.has_length most field.now }
{
    1 <= field.len() && field.len() <= most
}

// Returns true if the field has one to `most` characters, all of the class.
fn is_word(class: Class, most: usize, field: &[u8]) -> bool
    ensures value { result ≡ form.is_word (spec.is_of class) most field.now }
    ensures short { IsTrue result → length field.now ≤ most }
{
    has_length(field, most) && all_of(class, field)
}

/// Returns true if the field is the name of a type, an approach, a runway or a capability.
#[tactic(auto, unfolding(ops_tables::specs::Forms::is_name))]
pub(crate) fn is_name(field: &[u8]) -> bool
    ensures value { result ≡ form.is_name field.now }
    ensures short { IsTrue result → length field.now ≤ 8 }
{
    is_word(Class::Name, 8, field)
}

/// Returns true if the field is the name of a capability, or empty.
pub(crate) fn is_name_or_none(field: &[u8]) -> bool
    ensures value { result ≡ form.is_name_or_none field.now }
    ensures short { IsTrue result → length field.now ≤ 8 }
{
    field.is_empty() || is_name(field)
}

/// Returns true if the field is a registration.
#[tactic(auto, unfolding(ops_tables::specs::Forms::is_tail))]
pub(crate) fn is_tail(field: &[u8]) -> bool
    ensures value { result ≡ form.is_tail field.now }
    ensures short { IsTrue result → length field.now ≤ 8 }
{
    is_word(Class::Mark, 8, field)
}

/// Returns true if the field is the name of an item of a minimum equipment list.
#[tactic(auto, unfolding(ops_tables::specs::Forms::is_item))]
pub(crate) fn is_item(field: &[u8]) -> bool
    ensures value { result ≡ form.is_item field.now }
    ensures short { IsTrue result → length field.now ≤ 16 }
{
    is_word(Class::Mark, 16, field)
}

/// Returns true if the field is the name of a person.
#[tactic(auto, unfolding(ops_tables::specs::Forms::is_person))]
pub(crate) fn is_person(field: &[u8]) -> bool
    ensures value { result ≡ form.is_person field.now }
    ensures short { IsTrue result → length field.now ≤ 16 }
{
    is_word(Class::Person, 16, field)
}

/// Returns true if the field is the key of a person.
#[tactic(auto, unfolding(ops_tables::specs::Forms::is_key))]
pub(crate) fn is_key(field: &[u8]) -> bool
    ensures value { result ≡ form.is_key field.now }
    ensures short { IsTrue result → length field.now ≤ 64 }
{
    is_word(Class::Key, 64, field)
}

// Returns true if each part between single spaces is a name.
fn are_parts_names(field: &[u8]) -> bool
    ensures { result ≡ list_all form.is_name (slice_split names.is_blank field.now) }
{
    field.split(|b| *b == b' ').all(|part| is_name(part))
}

fn are_listed_names(field: &[u8]) -> bool
    ensures { result ≡ list_all form.is_name (names.names_of field.now) }
{
    field.is_empty() || are_parts_names(field)
}

/// Reads a list of capabilities, in which a single space separates names. The list may be empty.
#[tactic(auto, unfolding(crate::specs::Fields::capabilities_of))]
pub(crate) fn capabilities(alloc: Global, field: &[u8]) -> Result<Option<Capabilities>, OutOfMemory>
    ensures value { IfOk result (λ names. names ≡ spec.capabilities_of field.now) }
    ensures forms { IfOk result (λ names. IfSome names (λ each. IsTrue (list_all form.is_name each))) }
{
    if !are_listed_names(field) {
        return Ok(None);
    }
    Ok(Some(Capabilities::of(Text::of(alloc, field)?)))
}

/// Reads a number from `least` to `most` in plain decimal digits, without sign or leading zero.
pub(crate) fn number_within(least: u32, most: u32, field: &[u8]) -> Option<u32>
    ensures value { result ≡ spec.number_within least most field.now }
    ensures bound { IfSome result (λ n. (least ≤ n) × (n ≤ most)) }
{
    let number = read_number(u64::from(most), field)? as u32;
    if least <= number { Some(number) } else { None }
}

/// Reads `1` as true and `0` as false.
pub(crate) fn mark_of(field: &[u8]) -> Option<bool>
    ensures { result ≡ spec.mark_of field.now }
{
    match field {
        b"1" => Some(true),
        b"0" => Some(false),
        _ => None,
    }
}

/// Reads a repair category, a letter from A to D.
pub(crate) fn category_of(field: &[u8]) -> Option<Category>
    ensures { result ≡ spec.category_of field.now }
{
    match field {
        b"A" => Some(Category::A),
        b"B" => Some(Category::B),
        b"C" => Some(Category::C),
        b"D" => Some(Category::D),
        _ => None,
    }
}

/// Reads a role: D, C, F, M or S.
pub(crate) fn role_of(field: &[u8]) -> Option<Role>
    ensures { result ≡ spec.role_of field.now }
{
    match field {
        b"D" => Some(Role::D),
        b"C" => Some(Role::C),
        b"F" => Some(Role::F),
        b"M" => Some(Role::M),
        b"S" => Some(Role::S),
        _ => None,
    }
}
