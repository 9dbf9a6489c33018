//! A client's side of PostgreSQL's protocol, version 3.0, over any link.
#![tactic(auto)]

mod backend;
mod crossing;
mod frontend;
mod session;

pub use backend::{Head, Seen, read_content, read_head, read_message, read_whole, skip};
pub use crossing::{Lost, SendFault, read_exactly, send};
pub use frontend::{
    CONTENT_LIMIT, WriteFault, push_bind, push_execute, push_message, push_parse, push_query,
    push_sasl_first, push_sasl_last, push_setting, push_startup, push_sync, push_value,
};
pub use session::{Answer, FRONT, noted, settle, sqlstate};
