//! The commands of a script, one after another: what each makes of a circuit.
//!
//! `apply` does one command, and is proved to be exactly one step of the fold of all commands; after a refusal the circuit
//! is as before, and the refusal is the first cause in the stated order.
//!
//! - `keys`: the element that a command is about
//! - `elements`: elements made and edited
//! - `options`: options set, and Solves counted
//! - `fold`: `apply`
//! - `laws`: what every circuit is that commands make
#![tactic(auto)]

mod elements;
mod fold;
mod keys;
mod laws;
mod options;

pub use fold::apply;
pub use laws::limits_law;

// Handed on from the crates below.
pub use dss_circuit::{
    Blame, Circuit, Class, Command, ControlQuantity, Element, ElementName, ModelError, Place, Text,
    Verb,
};
