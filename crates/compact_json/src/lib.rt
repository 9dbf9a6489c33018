//! JSON documents in compact memory, at most a few times the bytes of their text.
#![tactic(auto)]

mod adding;
mod boxes;
#[cfg(test)]
mod cases;
mod document;
mod element;
mod items;
mod keys;
mod lent;
mod looks;
mod members;
mod numbers;
mod texts;
mod writing;

pub use document::Document;
pub use element::Element;
pub use items::Items;
pub use keys::Keys;
pub use lent::Json;
