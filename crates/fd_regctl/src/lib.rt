//! The control of a voltage regulator: what it wants at a voltage, when it is queued, and how it moves its tap.
//!
//! In `specs/`:
//!
//! - `Regulator`: the verdict at a quantity, and the edge at which it changes
//! - `Settings`: a regulator by its settings in the script, at a tap
//! - `RegulatorLaws`: their laws, each of which is the contract of a function of `laws`
//! - `RegState`: what contracts see of a control's state, and how the queue machine shows it
//!
//! `RegState::react` does the sampling rules of the queue machine for one control, and `RegState::act` moves a tap.
//! No call takes memory.
#![tactic(auto)]

mod laws;
mod state;

pub use laws::{
    regulator_decided_law, regulator_edge_law, regulator_law, settings_law, steps_law, tap_law,
};
pub use state::RegState;

// Handed on from the crates below.
pub use fd_queue::{
    Coef, Cx, Enclose, Ends, Entry, Interval, Micro, NodeAt, NodesAt, Queue, Square, TapPair,
    Timing, Verdict, count_law, floor_of_product, own_law, queue_law, room_law, sampled_law,
    spare_law,
};
