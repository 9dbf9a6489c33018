//! The controlling weather of an airport: the least ceiling and visibility of forecast and report at a moment, and
//! the worst over a time window.
#![tactic(auto)]

mod changes;
mod parts;
mod steps;
mod window;

pub use steps::Steps;
pub use window::{at, worst, worst_counted};
