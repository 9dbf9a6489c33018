//! The requests to the desk and its replies, with their JSON.
#![tactic(auto)]

mod ask_values;
mod bad_call;
mod call;
mod digests;
mod dones;
mod fields;
mod held;
mod kept;
mod leg_values;
mod legs;
mod members;
mod plan_values;
mod plans;
mod reply;
mod values;

pub use ask_values::{ask_digest, ask_text, ask_value};
pub use bad_call::{BadCall, CallWhy};
pub use call::{Ask, Call};
pub use digests::{digest_at, digest_value, with_digest};
pub use dones::{done_value, read_done, read_said_done};
pub use fields::{
    amount_at, data_of, document_of, has_members, id_at, list_at, moment_at, number_at, short_at,
    station_at, text_at,
};
pub use held::HeldCall;
pub use kept::{Floor, Floors, KeptReply};
pub use members::{Members, with_count, with_moment, with_name, with_text, with_value};
pub use plan_values::{plan_text, plan_value};
pub use plans::read_plan;
pub use reply::{Done, Refusal, Reply};
pub use values::{count_value, moment_value, name_value, option_value, text_value};
