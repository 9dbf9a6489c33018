//! Moments in minutes since 1970-01-01 00:00 UTC, calendar days, and numbers in decimal.
#![tactic(auto)]

mod calendar;
mod digits;
mod moments;
mod numbers;

pub use calendar::three_months;
pub use digits::{digit, pair};
pub use moments::{
    BadDay, FIRST, LAST, Minute, PLAN_FIRST, PLAN_LAST, SHOWN_LAST, read_minute, read_shown,
    resolve, show,
};
pub use numbers::{all_digits, is_digit, read_number};
