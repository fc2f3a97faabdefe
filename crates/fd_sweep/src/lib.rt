//! Kersting's ladder sweep of a radial circuit: a second method, which shares no elimination and no inverse with the
//! solver.
//!
//! In `specs/`, `Ladders` says what the ladder of a circuit is, and `Sweep` how its sweep ends.
//!
//! - `positions`: the taps and the states of banks that belong to each element
//! - `reached`: the nodes that are reached, by which a Line is seen from its nearer end
//! - `ladder`: the rungs and the shunts of a circuit
//! - `circuit`: `sweep`, the sweep of a circuit at the positions of its network
#![tactic(auto)]

mod circuit;
mod ladder;
mod positions;
mod reached;

pub use circuit::sweep;

// Handed on from the crates below.
pub use fd_ladder::{LadderFault, radial, radial_law};
pub use fd_series::Swept;
