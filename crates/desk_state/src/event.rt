use crate::change::AlertChange;
use crate::effect::Effect;
use crate::entry::Entry;
use asks::KeptReply;

/// An event, ready to install: its effect, and the alerts that it changes.
#[derive(Drop)]
pub struct Event {
    /// What it changes before releases are judged.
    pub effect: Effect,
    /// The alerts that change, in order of the releases.
    pub changes: Vec<AlertChange>,
    /// Its entry in the history.
    pub entered: Entry,
    /// The reply to keep, if the event is an accepted command.
    pub kept: Option<KeptReply>,
}
