//! The order in which the Lines and Transformers of a radial circuit are taken, from its source outwards.
//!
//! At first the nodes of Vsource.source are reached. Lines and Transformers are looked at in order of definition, again
//! and again until none is taken; the nodes of one that is taken are reached from then on. A Line is taken where all
//! nodes of one end are reached and none of the other, a Transformer where those of its first winding are reached and
//! none of its second. A circuit is radial where each of them is taken, and where Vsource.source is its one source.
//!
//! A pass looks only at those that may be taken, and finds the next of them in a sorted set: one may be at first, and
//! again when a node is reached that it joins. The order is that of whole passes, and it takes a time that grows no
//! faster than the number of Lines and Transformers times its logarithm. There is no limit on the unknowns here.
//!
//! In `specs/`, `Sections` and `Radial` say this exactly. `radial` answers exactly that, of any circuit, whether it
//! passes the tests of Solve or not; want of memory is its only free answer.
//!
//! - `section`: the Lines and Transformers by their nodes, and from which side each may be taken
//! - `touching`: the Lines and Transformers that join each node
//! - `due`: those that may be taken
//! - `walk`: the order in which they are taken
//! - `order`: `radial`, the order or the first element that offends
//! - `laws`: the walk ends
//! - `fault`: why there is no order
#![tactic(auto)]

mod due;
mod fault;
mod laws;
mod order;
mod section;
mod touching;
mod walk;

pub use fault::LadderFault;
pub use laws::radial_law;
pub use order::radial;

// Handed on from the crates below.
pub use dss_circuit::Circuit;
pub use dss_layout::{
    Element, ElementName, Items, Layout, NodeName, Terminals, Text, terminal_nodes,
};
