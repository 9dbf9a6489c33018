ghost use Rattle.std.specs.Prelude.{◌≡◌, ◌++◌, [], List, codes, map, OnErr, OnOk};
ghost use Rattle.alerts.specs.Ringing.{AreRungFor, Hung, due, dropped, dropped_seen, fresh_from, hung_all, staying};
ghost use Rattle.relief.specs.Roster.{sitter_at};
ghost use Rattle.relief.specs.Seated.{HaveHeard, Told, bells_in, told_under};

use crate::roster::Roster;
use alerts::{Bell, Dropped, Notice, Notices, Ringer, Seating, Unhung};
use desk_io::OutOfMemory;
use std::alloc::Global;
use std::marker::Model;
use std::mem;

impl Seating for Roster {
    ghost sitter_of = { sitter_at };

    fn sitter_of<'a>(&'a self, desk: &'a [u8]) -> Option<&'a [u8]> {
        self.sitter(desk)
    }
}

/// Delivers notices to the bells of the persons who sit at the desks. Contracts model it as its bells, each with its
/// place, how many notices it has received, and whether it stays.
#[derive(Drop)]
pub struct Seated<B: Bell> {
    alloc: Global,
    // The bells before the first notices. Afterwards they are in the ringer.
    bells: Vec<B>,
    ringer: Ringer<B>,
}

impl<B: Bell> Model for Seated<B> {
    ghost use Rattle.std.specs.Prelude.{List, map};
    ghost use Rattle.alerts.specs.Ringing.{Hung, hung_all};
    ghost use Rattle.relief.specs.Seated.{bells_in};

    ghost Value = { List Hung };

    ghost view = { λ s. bells_in (hung_all B.seen s.ringer) (map B.seen s.bells.items) };
}

// Gives the bells to the ringer, unless it has them already. If memory runs out, nothing changes.
fn hang<B: Bell + Drop>(
    alloc: Global,
    bells: &mut Vec<B>,
    ringer: &mut Ringer<B>,
) -> Result<(), OutOfMemory>
    ensures none { OnOk result (bells.new.items ≡ []) }
    ensures hung { OnOk result (hung_all B.seen ringer.new
        ≡ bells_in (hung_all B.seen ringer.old) (map B.seen bells.old.items)) }
    ensures bells { OnErr result (bells.new.items ≡ bells.old.items) }
    ensures ringer { OnErr result (ringer.new ≡ ringer.old) }
{
    if bells.is_empty() {
        return Ok(());
    }
    match Ringer::new(alloc, mem::replace(bells, Vec::new(alloc))) {
        Ok(hung) => {
            *ringer = hung;
            Ok(())
        }
        Err(Unhung { bells: unhung }) => {
            *bells = unhung;
            Err(OutOfMemory)
        }
    }
}

impl<B: Bell + Drop> Seated<B> {
    /// Takes these bells, which have received nothing from it yet. It allocates nothing.
    pub fn new(alloc: Global, bells: Vec<B>) -> Seated<B>
        ensures bells { result ≡ fresh_from 0 (map B.seen bells.items) }
        ensures since { HaveHeard [] result result }
    {
        Seated {
            alloc,
            bells,
            ringer: Ringer::none(alloc),
        }
    }

    fn ring(&mut self, roster: &Roster, notices: &[Notice]) -> Result<(), OutOfMemory>
        ensures ok { OnOk result (AreRungFor (due (sitter_at roster.now) notices.now) self.old self.new) }
        ensures err { OnErr result (self.new ≡ self.old) }
    {
        hang(self.alloc, &mut self.bells, &mut self.ringer)?;
        self.ringer.ring_seated(roster, notices);
        Ok(())
    }

    /// Delivers the notices in order, each to the bells of the person who sits at its desk and to those of `*`. A bell
    /// that fails is dropped, and the others receive everything. If memory runs out, no bell has received anything.
    pub fn ring_seated(&mut self, roster: &Roster, notices: &Notices) -> Result<(), OutOfMemory>
        ensures ok { OnOk result (AreRungFor (due (sitter_at roster.now) notices.now) self.old self.new) }
        ensures err { OnErr result (self.new ≡ self.old) }
        ensures since { (told : List Told) → (bells : List Hung) → HaveHeard told bells self.old
            → OnOk result (HaveHeard (told ++ told_under roster.now notices.now) bells self.new) }
        ensures all { due (sitter_at roster.now) notices.now (codes "*") ≡ notices.now }
    {
        self.ring(roster, notices.as_slice())
    }

    /// Hands back the bells that stayed, in order, and those that were dropped, in the order of their places. It
    /// allocates nothing.
    pub fn finish(self) -> (Vec<B>, Vec<Dropped<B>>)
        ensures bells { map B.seen result.0.items ≡ staying self }
        ensures dropped { map (dropped_seen B.seen) result.1.items ≡ dropped self }
    {
        let Seated {
            alloc,
            bells,
            ringer,
        } = self;
        if bells.as_slice().is_empty() {
            return ringer.finish();
        }
        (bells, Vec::new(alloc))
    }
}
