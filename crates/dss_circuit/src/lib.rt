//! A circuit: its elements by name in order of definition, its options, and how many Solves were applied.
//!
//! Every circuit has at most 2^17 elements, no two of the same class and name, each under a legal name in lower case with
//! its own class, its values in range, and each element that one names is there; the first is the source that New Circuit
//! makes. A change leaves it so: `put` and `drop_class` are the only ones that a circuit's elements have.
//!
//! - `circuit`: `Circuit`
//! - `elements`: elements by name
#![tactic(auto)]

mod circuit;
mod elements;

pub use circuit::Circuit;
pub use elements::{Elements, find_element};

// Handed on from the crates below.
pub use dss_model::{
    Blame, Bus, CapControl, Class, Command, ControlMode, ControlQuantity, DataForm, Element,
    ElementName, Ends, Line, LineConstants, Load, Loadshape, ModelError, ModelFault, Nodes,
    Numbers, ONE, Options, Pair, Place, RegControl, SourceForm, Term, TermFault, Text, Transformer,
    Units, Verb, Vsource, Winding, class_named, is_legal_name, is_source_above_limit,
};
