//! The order in which the unknowns of a radial circuit are eliminated, and the equation that each is paired with.
//!
//! An elimination in this order goes from the ends of a feeder to its source, and leaves few numbers behind: `order`
//! answers exactly that order, the first element for which the circuit isn't radial, or that some unknown has no pair.
//! In `specs/`, `Feeds`, `Levels` and `Order` say this exactly. It takes a time that grows no faster than the circuit,
//! besides that of `radial`.
//!
//! - `buses`: buses by number
//! - `sides`: the nodes of an element at its two buses, and which elements are taken from the second
//! - `feed`: how each source, Line and Transformer is fed
//! - `levels`: the levels of buses
//! - `group`: pairs by levels
//! - `once`: whether each unknown and each equation has one pair
//! - `answer`: `order`, all pairs in order
//! - `laws`: levels are least numbers, and none is above the number of buses
//! - `fault`: why there is no order
#![tactic(auto)]

mod answer;
mod buses;
mod fault;
mod feed;
mod group;
mod laws;
mod levels;
mod once;
mod sides;

pub use answer::order;
pub use fault::OrderFault;
pub use laws::{last_level_law, level_law};
