//! The desk over HTTP: the response to each request, over one connection or over many that share the desk. Many are
//! served in rounds, or by workers beside which the desk ticks every minute.
#![tactic(auto)]

mod answering;
mod counted;
mod doors;
mod event_list;
mod events;
mod exchange;
mod gauges;
mod laws;
mod minutes;
mod misses;
mod opened;
mod pages;
mod requested;
mod responding;
mod responses;
mod rounds;
mod serving;
mod shared;
mod statuses;
mod staying;
mod surface;
mod turn_answers;
mod turns;
mod wanted;

pub use doors::{Left, serve_door};
pub use events::Event;
pub use gauges::Gauges;
pub use laws::{kept_again_by_an_entry, ticks_take_answers};
pub use minutes::Minutes;
pub use misses::{Miss, MissOf};
pub use opened::Opened;
pub use pages::Page;
pub use serving::serve_link;
pub use shared::Shared;
pub use statuses::status_of;
pub use staying::stay_at_door;
pub use surface::{Program, Surface};
pub use turn_answers::answer_in_turn;
pub use turns::serve_turns;
pub use wanted::Wanted;
