//! The circuit of a short circuit: a scripted circuit without its Loads, Capacitors, RegControls and CapControls, with a
//! line of zero impedance from nodes of a bus to ground.
//!
//! `fault_circuit` promises exactly that circuit, with the line last under the first of the names short, short-1, short-2
//! and so on that no Line has, or says which node the scripted circuit lacks, or that the line passes the limit on the
//! unknowns. Where the scripted circuit passed the tests of Solve, so does this one (`passed_law`).
//!
//! - `kind`: which nodes are joined to ground
//! - `fault`: why there is no circuit
//! - `names`: the name of the line
//! - `line`: the line
//! - `missing`: the nodes that are asked for
//! - `circuit`: `fault_circuit`
//! - `laws`: the circuit has passed the tests
#![tactic(auto)]

mod circuit;
mod fault;
mod kind;
mod laws;
mod line;
mod missing;
mod names;

pub use circuit::fault_circuit;
pub use fault::CircuitFault;
pub use kind::Kind;
pub use laws::passed_law;

// Handed on from the crates below.
pub use dss_ready::{Bus, Element, Line, ModelFault, NodeName, Place, ReadyFault, ready};
