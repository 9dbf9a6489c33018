//! Weather minima of airports for landing and for alternates (14 CFR 121.613, 121.621, 121.625, 121.652).
#![tactic(auto)]

mod derived;
mod floors;
mod increase;
mod usable;
mod within;

pub use derived::{alternate_pairs, landing};
pub use floors::flag_floor;
pub use increase::raised;
pub use usable::millimetres;
pub use within::{Bounds, has_alternate_within, has_raised_within};
