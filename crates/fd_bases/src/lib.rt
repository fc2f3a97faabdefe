//! The voltage bases of buses, as `CalcVoltageBases` asks for them.
//!
//! A source gives its bus a nominal voltage: its basekv over root three for three phases, its basekv as it is for one
//! phase. A line gives its other bus the nominal voltage of the one that is reached, and a transformer gives its other
//! bus that of the winding there: kv as it is for one phase with one node at ground, else kv over root three. Elements
//! are taken in order of definition, again and again, until no bus is new. A bus so reached has, of the option
//! voltagebases, the value which over root three is nearest to its nominal voltage.
//!
//! A pass takes only those elements that may reach a bus, and finds the next of them in a sorted set: an element is due
//! at first, and again when a bus is new that it touches. The order is that of whole passes.
//!
//! In `specs/`, `Nominals`, `Walk`, `Nearest` and `Bases` say this exactly. `bases` answers exactly that, of any
//! circuit, whether it passes the tests of Solve or not; want of memory is its only free answer.
//!
//! - `bus_base`: `bases`, the bases of a circuit's buses
//! - `due`: the elements that may change what is reached
//! - `laws`: the walk ends
//! - `nearest`: the base that is nearest to a nominal voltage
//! - `nominal`: the nominal voltages that sources and windings give
//! - `touching`: the elements that touch each bus
//! - `walk`: the buses that are reached from the sources
#![tactic(auto)]

mod bus_base;
mod due;
mod laws;
mod nearest;
mod nominal;
mod touching;
mod walk;

pub use bus_base::{BusBase, bases};
pub use laws::settled_law;

// Handed on from the crates below.
pub use dss_circuit::Circuit;
pub use dss_layout::{Element, ElementName, Layout};
