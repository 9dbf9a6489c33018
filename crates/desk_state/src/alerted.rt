ghost use Rattle.std.specs.Prelude.{◌≡◌, ◌||◌, ◌==◌, length, Some, None, OnOk};
ghost use Rattle.desk_state.specs.Contents.{held};
ghost use Rattle.desk_state.specs.Holds.{Holds};
ghost use Rattle.desk_state.specs.Install.{MayBeMade, MayPut, room_of, with_event};
ghost use Rattle.desk_state.specs.Sound.{Sound};

use crate::content::Content;
use crate::effect::Effect;
use crate::event::Event;
use desk_io::OutOfMemory;
use std::alloc::Global;
use std::marker::Model;

/// The desk's content with its alerts judged. Each active release either has no alert and fails no rule, or has one
/// alert that names exactly the rules that it fails.
#[derive(Drop)]
pub struct Alerted {
    content: Content,
}

impl Model for Alerted {
    ghost use Rattle.desk_state.specs.Contents.{Held};
    ghost use Rattle.desk_state.specs.Sound.{Sound};

    ghost Value = { Held };

    ghost view = { λ a. a.content };

    ghost invariant = { λ a. Sound a.content.state };
}

impl Alerted {
    /// Wraps content whose alerts are judged.
    pub fn of(content: Content) -> Alerted
        requires { Sound content.state }
        ensures { result ≡ content }
    {
        Alerted { content }
    }

    /// Returns the content.
    pub fn content(&self) -> &Content
        ensures value { result.now ≡ self.now }
        ensures sound { Sound self.now.state }
    {
        &self.content
    }

    /// If the history is empty, stores its entries from now on. Otherwise the entries stay stored or counted as
    /// before. Discards reserved room.
    pub fn hold_entries(&mut self, alloc: Global)
        ensures { self.new ≡ held self.old.state None (self.old.listed || (length self.old.state.entries == 0)) }
    {
        self.content.hold_entries(alloc);
    }

    /// Reserves all memory that an event with this effect and up to `more` changed alerts needs. The state doesn't
    /// change.
    pub fn reserve(
        &mut self,
        alloc: Global,
        effect: &Effect,
        more: usize,
    ) -> Result<(), OutOfMemory>
        requires { MayBeMade self.old.state effect.now }
        ensures same { self.new.state ≡ self.old.state }
        ensures listed { self.new.listed ≡ self.old.listed }
        ensures room { OnOk result (self.new.room ≡ Some (room_of effect.now more)) }
    {
        self.content.reserve(alloc, effect, more)
    }

    /// Installs an event, using reserved room. Allocates no memory.
    pub fn install(&mut self, event: Event)
        requires may { MayPut self.old event }
        requires sound { Sound (with_event event self.old.state) }
        requires holds { Holds (with_event event self.old.state) }
        ensures { self.new ≡ held (with_event event self.old.state) None self.old.listed }
    {
        self.content.install(event);
    }
}
