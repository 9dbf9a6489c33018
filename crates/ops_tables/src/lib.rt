//! The thirteen operations tables of an airline and the lookups in them.
#![tactic(auto)]

mod capabilities;
mod group;
mod grouped;
mod keys;
mod loading;
mod lookups;
mod names;
mod order;
mod packed;
mod row_texts;
mod rows;
mod short_text;
mod small_rows;
mod tables;

pub use capabilities::Capabilities;
pub use group::Group;
pub use grouped::{Grouped, Row};
pub use loading::Loading;
pub use names::has_name;
pub use rows::{
    Airport, AlternateRow, Approach, Category, Distance, ItemName, Lost, MelRow, Name,
    Registration, Role, Route, Settings, Tail, TypeRow, Use,
};
pub use short_text::ShortText;
pub use small_rows::{Actor, CaptainHours, ItemPair};
pub use tables::Tables;
