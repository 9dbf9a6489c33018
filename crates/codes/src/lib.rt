//! Reads the groups of weather reports: their shapes, and the ceiling and visibility that they report (FMH-1; WMO FM
//! 15 and FM 51).
#![tactic(auto)]

mod class;
mod cond;
mod fault;
mod groups;
mod minima;
mod moment;
mod period;
mod shapes;

pub use class::{Class, class_at};
pub use cond::{Cond, Stretch, cond_in, cond_of, is_period, least_of, lesser, stretch_in};
pub use fault::{BadReport, Form, REPORT_LIMIT, ReportFault, TOO_LONG, Why};
pub use groups::{Group, Groups, first_of};
pub use minima::meets;
pub use moment::{moment_or, time_of, written_moment};
pub use period::{end_of, numbered, period_at, period_in};
pub use shapes::{Named, sky, visibility};
