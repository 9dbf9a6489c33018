ghost use Rattle.std.specs.Prelude.{◌≡◌, IfNone, IfOk, IfSome, None, position};
ghost use Rattle.std.specs.Option.{option_copied};
ghost use Rattle.relief.specs.Roster as spec;
ghost use Rattle.relief.specs.Roster.{IsPlaceOf, is_line_of, line_of, own_line, own_lines, sitter_at};

use desk_io::{OutOfMemory, Text};
use ops_tables::{Actor, Role};
use std::alloc::Global;

/// A line of the roster.
#[derive(Debug, Drop)]
pub struct RosterLine {
    /// The desk, which has the name of a dispatcher.
    pub desk: Text,
    /// The dispatcher who sits at the desk.
    pub sitter: Text,
    /// The dispatcher to whom the desk is offered.
    pub offered: Option<Text>,
}

/// Returns true if a person with this role is a dispatcher.
pub(crate) fn is_dispatcher_role(role: Role) -> bool
    ensures { result ≡ spec.is_dispatcher_role role }
{
    match role {
        Role::D => true,
        Role::C | Role::F | Role::M | Role::S => false,
    }
}

fn own_line(alloc: Global, desk: &[u8]) -> Result<RosterLine, OutOfMemory>
    ensures { IfOk result (λ line. line ≡ own_line desk.now) }
{
    Ok(RosterLine {
        desk: Text::of(alloc, desk)?,
        sitter: Text::of(alloc, desk)?,
        offered: None,
    })
}

/// Returns a line for each dispatcher among these people, at whose desk he sits himself.
pub(crate) fn own_lines(alloc: Global, people: &[Actor]) -> Result<Vec<RosterLine>, OutOfMemory>
    ensures { IfOk result (λ lines. lines.items ≡ own_lines people.now) }
{
    let mut lines = Vec::new(alloc);
    for person in people {
        if is_dispatcher_role(person.role()) {
            lines.push(own_line(alloc, person.name())?)?;
        }
    }
    Ok(lines)
}

/// Returns the line of a desk.
pub(crate) fn line_of<'a>(lines: &'a [RosterLine], desk: &[u8]) -> Option<&'a RosterLine>
    ensures { option_copied result ≡ line_of lines.now desk.now }
{
    lines.iter().find(|line| line.desk.bytes() == desk)
}

/// Returns the person who sits at a desk.
pub(crate) fn sitter_in<'a>(lines: &'a [RosterLine], desk: &[u8]) -> Option<&'a [u8]>
    ensures { option_copied result ≡ sitter_at lines.now desk.now }
{
    let line = line_of(lines, desk)?;
    Some(line.sitter.bytes())
}

fn index_of(lines: &[RosterLine], desk: &[u8]) -> Option<usize>
    ensures { result ≡ position (is_line_of desk.now) lines.now }
{
    lines.iter().position(|line| line.desk.bytes() == desk)
}

/// Returns the index of the line of a desk.
#[tactic(auto, using(crate::proofs::PlaceLaws::no_place, crate::proofs::PlaceLaws::place))]
pub(crate) fn place_of(lines: &[RosterLine], desk: &[u8]) -> Option<usize>
    ensures none { IfNone result (line_of lines.now desk.now ≡ None) }
    ensures some { IfSome result (IsPlaceOf desk.now lines.now) }
{
    index_of(lines, desk)
}
