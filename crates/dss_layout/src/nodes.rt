// Names of nodes and of phases.
use dss_model::{ElementName, Items, Text};

/// A node: a bus in lower case, and a number at it from 0 to 9. Number 0 is ground.
#[derive(Drop, Clone, PartialEq, Eq, Hash)]
pub struct NodeName {
    pub bus: Text,
    pub number: u8,
}

/// A phase of an element, from 1.
#[derive(Drop, Clone)]
pub struct PhaseName {
    pub element: ElementName,
    pub phase: u32,
}

/// Nodes in order.
pub type NodeNames = Items<NodeName>;
