//! The decision on each call of a person: the tests of its ask in order, and the effect or the view that follows.
#![tactic(auto)]

mod acknowledgement;
mod alert_lines;
mod boards;
mod chain;
mod deciding;
mod drafts;
mod due_lines;
mod equipment;
mod findings;
mod flights;
mod floors;
mod hours;
mod people;
mod release_lines;
mod releases;
mod repeats;
mod reports;
mod retention;
mod rulings;
mod shown;
mod signatures;
mod sweeps;
mod weather;

pub use alert_lines::alerts_view;
pub use boards::{board_view, closing};
pub use chain::Stop;
pub use deciding::decide;
pub use due_lines::deferral_lines;
pub use people::mistaken;
pub use release_lines::release_view;
pub use weather::weather_view;
