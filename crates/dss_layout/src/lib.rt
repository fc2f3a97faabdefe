//! The layout of a circuit: at which nodes each element joins its buses, and how the unknowns are numbered.
//!
//! A test of terminals answers exactly the fault of an element's buses. The layout is exactly that of the elements in
//! order of definition, or names exactly the first element with which a limit is passed.
//!
//! - `numbers`: the node numbers of one bus, with their defaults
//! - `nodes`: names of nodes and of phases
//! - `terminals`: the nodes of an element at its buses
//! - `limits`: the limits on the unknowns
//! - `unknowns`: the unknowns while elements are added one by one
//! - `layout`: the unknowns of a circuit, by number
//! - `names`: the names of nodes, elements and unknowns as text
#![tactic(auto)]

mod layout;
mod limits;
mod names;
mod nodes;
mod numbers;
mod terminals;
mod unknowns;

pub use layout::Layout;
pub use limits::LayoutFault;
pub use names::{element_text, node_text};
pub use nodes::{NodeName, NodeNames, PhaseName};
pub use numbers::{PhaseNumbers, TerminalFault, bus_at, line_bus_at, source_at};
pub use terminals::{Terminals, check_terminals, terminal_nodes};

// Handed on from the crates below.
pub use dss_model::{
    BankState, Blame, Bus, Capacitor, Class, Connection, Element, ElementName, Ends, FEMTO_PER_ONE,
    Items, Line, Load, LoadKind, LoadModel, Loadshape, Mode, NodeAt, NodesAt, Options, ROOT_THREE,
    TapPair, Term, TermFault, Text, Transformer, Vsource, Winding,
};
