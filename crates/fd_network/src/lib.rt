// The network of a scripted circuit.
//
// `Network::build` gives exactly the network of a circuit that passed the tests of Solve, at given positions of taps and banks and given powers
// of load phases: its rows are those of the elements' complex equations at every state. Range is the answer exactly where a number of the
// linear rows, or the sum of those at one place, is past 2^54 in units of 2^-40, or a load is past its limit, and it names the
// first element to blame. `update` leaves what `build` gives, and after a refusal what was there; it writes the stamps of the elements that
// moved, whose taps, state or powers aren't what they were, and of no other. Where nothing is out of range it is Ok and
// takes no memory, since the lists have room, and the rows places, for all that the elements add at any settings. A network keeps the layout
// of its unknowns, with their names, and hands on its rows (`rows`) to the solver and the certificate.
//
// A network is seen as the stamps of its elements in order, with the settings at which they stand: the taps, the states of banks and the
// powers of load phases.
//
// Modules: `network` has the type, `assembly` makes its parts those of what the elements add, `stamps` collects that and
// names the element out of range by its place, `extents` has how much of it each element has, `former` what elements added before
// an update, `keeping` what is kept of the elements for updates, `room` how much room the lists need, `fault` why elements have no
// rows, `blame` the element to blame.
#![tactic(auto)]

mod assembly;
mod blame;
mod extents;
mod fault;
mod former;
mod keeping;
mod laws;
mod network;
mod room;
mod stamps;

pub use laws::network_law;
pub use network::Network;

// Handed on from the crates below.
pub use dss_ready::{
    Blame, CapControl, Circuit, Class, ControlMode, ControlQuantity, Element, ElementName, Layout,
    Line, NodeName, Options, PhaseName, ReadyFault, RegControl, Text, Transformer, Winding,
    passed_law, ready,
};
pub use fd_devices::{
    BankStates, BuildFault, NodePair, PhaseAt, Positions, Powers, Taps, XfmrData, phase_at,
    phase_volts, xfmr_data,
};
pub use fd_equations::near_quotient;
