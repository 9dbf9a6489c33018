ghost use Rattle.std.specs.Prelude.{◌≡◌, ◌++◌, OnOk};
ghost use Rattle.scripts.specs.RosterTexts as spec;
ghost use Rattle.scripts.specs.RosterTexts.{desk_text, desks_text, roster_text};

use desk_io::{OutOfMemory, Text, push_all};
use relief::{Roster, RosterLine};

fn offered_text(offered: &Option<Text>) -> &[u8]
    ensures { result.now ≡ spec.offered_text offered.now }
{
    match offered {
        None => b"-",
        Some(person) => person.bytes(),
    }
}

fn push_desk(out: &mut Vec<u8>, line: &RosterLine) -> Result<(), OutOfMemory>
    ensures { OnOk result (out.new.items ≡ out.old.items ++ desk_text line.now) }
{
    push_all(out, &[line.desk.bytes(), b" ", line.sitter.bytes(), b" "])?;
    push_all(out, &[offered_text(&line.offered), b"\n"])
}

fn push_desks(out: &mut Vec<u8>, lines: &[RosterLine]) -> Result<(), OutOfMemory>
    ensures { OnOk result (out.new.items ≡ out.old.items ++ desks_text lines.now) }
{
    for line in lines {
        push_desk(out, line)?;
    }
    Ok(())
}

/// Appends the roster: a line for each desk, with its sitter and to whom it is offered.
pub(crate) fn push_roster(out: &mut Vec<u8>, roster: &Roster) -> Result<(), OutOfMemory>
    ensures { OnOk result (out.new.items ≡ out.old.items ++ roster_text roster.now) }
{
    out.extend_from_slice(b"ROSTER\n")?;
    push_desks(out, roster.lines())?;
    out.extend_from_slice(b"END\n")?;
    Ok(())
}
