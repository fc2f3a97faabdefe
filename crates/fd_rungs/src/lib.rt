//! Kersting's ladder sweep over the rungs of a radial feeder.
#![tactic(auto)]

mod backward;
mod banks;
mod branch;
mod coefficients;
mod draws;
mod forward;
mod iterate;
mod lines;
mod numbers;
mod sources;
mod state;
mod swept;
mod terminals;
mod transformers;

pub use banks::add_bank_shunts;
pub use branch::{Branch, Ladder, Numbers, Rung, Shunt};
pub use iterate::sweeps;
pub use lines::{add_line_shunts, line_rung};
pub use sources::source_rung;
pub use swept::Swept;
pub use transformers::transformer_rung;

// Handed on from the crates below.
pub use dss_model::{Capacitor, Ends, Line, NodeAt, NodesAt, TapPair, Vsource};
pub use fd_cap::CapData;
