ghost use Rattle.std.specs.Prelude.{◌≡◌, is_some};
ghost use Rattle.std.specs.Option.{option_copied};

use alerts::Notices;
use asks::Reply;
use desk_io::Change;
use desk_state::Event;

/// A prepared step, which only has to be installed.
#[derive(Drop)]
pub struct Prepared {
    pub(crate) reply: Option<Reply>,
    pub(crate) notices: Notices,
    pub(crate) event: Option<Event>,
    pub(crate) changes: Vec<Change>,
}

/// The result of an installed step.
#[derive(Debug, Drop)]
pub struct Installed {
    /// The reply, which an allowed tick doesn't have.
    pub reply: Option<Reply>,
    /// The notices about alerts.
    pub notices: Notices,
}

impl Prepared {
    /// Returns the reply, which an allowed tick doesn't have.
    pub fn reply(&self) -> Option<&Reply>
        ensures { option_copied result ≡ self.now.reply }
    {
        self.reply.as_ref()
    }

    /// Returns the changes that the step makes to the stored rows. A step that changes nothing has none.
    pub fn changes(&self) -> &[Change]
        ensures { result.now ≡ self.now.changes.items }
    {
        &self.changes
    }

    /// Returns true if the step changes anything.
    pub fn changed(&self) -> bool
        ensures { result ≡ is_some self.now.event }
    {
        self.event.is_some()
    }
}
