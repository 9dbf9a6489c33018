//! Generates a large valid input from a seed: the calls of three people of a small airline.
#![tactic(auto)]

mod calls;
mod maker;
mod numbers;
mod plans;

pub use maker::{MADE_AT, Maker, Turn};
