//! The timed queue of controls, and the machine that it is a part of: definitions, laws and the queue's code.
//!
//! After each solve every control is sampled and takes, keeps or gives up an entry of the queue; then all entries of
//! the least time leave it together and move their devices. In `specs/`:
//!
//! - `Quantities`, `Decisions`: where a quantity stands to edges, what a control wants at it, and over an interval
//! - `Queue`: what a queue keeps to, and what its calls do, as words on lists of entries
//! - `Controls`, `Machine`: the machine, a step of which takes one decision for each control
//! - `DecisionLaws`, `MachineLaws`: their laws, each of which is the contract of a function of `laws`
//!
//! The code keeps the entries in order, in room that is reserved once: only `Queue::with_room` takes memory.
#![tactic(auto)]

mod entry;
mod laws;
mod places;
mod queue;
mod times;
mod timing;
mod verdict;

pub use entry::Entry;
pub use laws::{
    count_law, decided_law, least_law, magnitude_law, next_law, own_law, proper_law, queue_law,
    quiet_law, room_law, sampled_law, spare_law, value_law,
};
pub use queue::Queue;
pub use timing::Timing;
pub use verdict::Verdict;

// Handed on from the crates below.
pub use fd_arith::{
    Coef, Cx, Enclose, Ends, Interval, Micro, NodeAt, NodesAt, Square, TapPair, floor_of_product,
};
