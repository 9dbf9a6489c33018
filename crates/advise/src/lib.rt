//! Advises alternates: of the candidates for a leg, a legal list with which the leg requires the least fuel. Writes the
//! advice on the legs of a plan as text.
#![tactic(auto)]

mod advice;
mod candidates;
mod listing;
mod search;
mod text;
mod verdicts;

pub use advice::{Advice, advise};
pub use candidates::{Candidate, is_candidate};
pub use rules::Steps;
pub use text::advice_text;
