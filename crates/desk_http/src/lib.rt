//! HTTP for the desk: reads requests from a connection, finds their routes, and makes responses (RFC 9110, RFC 9112).
#![tactic(auto)]

mod buffer;
mod digits;
mod fields;
mod fronts;
mod heads;
mod reading;
mod requests;
mod responses;
mod router;
mod routes;
mod wire;

pub use buffer::Buffer;
pub use fronts::{FIELD_ROOM, Front, HEAD_LIMIT, front_of};
pub use heads::{BODY_LIMIT, asked};
pub use requests::next_request;
pub use responses::{response, typed_response};
pub use router::Patterns;
pub use routes::{RouteFault, Routed, route};
pub use wire::{Asked, Wire, WireFault};
