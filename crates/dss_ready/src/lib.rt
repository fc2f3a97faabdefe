//! The tests that a Solve makes of a circuit's elements before anything is solved.
//!
//! `ready` looks at a circuit's elements in order of definition, and names the first that is to blame with the first cause
//! that applies to it: a value out of range, a wrong count, something unsupported, a duplicate, no impedance. Then come
//! the first element that passes a limit on the unknowns, and the first with a node that no source feeds, which is found
//! exactly where there is one.
//!
//! - `fault`: the answer of the tests
//! - `mention`: what elements name of one another
//! - `lookup`: elements by name
//! - `range`, `count`, `support`: the tests of one element by their causes
//! - `walk`: the first element to blame
//! - `feeding`: which nodes a source feeds, and the first element that isn't fed
//! - `answer`: all tests
//! - `law`: what a circuit that passed them is
#![tactic(auto)]

mod answer;
mod count;
mod fault;
mod feeding;
mod law;
mod lookup;
mod mention;
mod range;
mod support;
mod walk;

pub use answer::ready;
pub use fault::ReadyFault;
pub use feeding::first_isolated;
pub use law::passed_law;

// Handed on from the crates below.
pub use dss_circuit::{
    Blame, Bus, CapControl, Circuit, Class, ControlMode, ControlQuantity, DataForm, Element,
    ElementName, Elements, Ends, Line, LineConstants, ModelFault, Nodes, ONE, Options, Place,
    RegControl, Term, TermFault, Text, Transformer, Units, Winding, find_element,
};
pub use dss_layout::{Layout, LayoutFault, NodeName, PhaseName};
