//! A list of items that contracts see as a list.
//!
//! - `items`: the type
#![tactic(auto)]

mod items;

pub use items::Items;
