// Samples of controls over a ball of states: what a control wants at every state within the radii of a centre, or
// between which ends it is undecided.
//
// It promises that a sample's interval is the control's expression in the interval operators, in the stated order, and
// holds the control's quantity at every state of the ball, whatever its denominator. So a decided `verdict` is what the
// control wants at each of these states, steps included. `Undecided` comes exactly where the least and the greatest
// value of the interval want different things, or the interval is ALL, and tells the ends and the edge at which the
// decision changes. A sample takes no memory, and nothing of it grows with the circuit.
//
// The controls of a circuit that passed the tests of Solve are one list, `probes`, in the script's order; `probes_law`
// says what they keep to. `sample_law` says of any ball that a decided sample is wanted at each of its states.
//
// In `specs/`: `Balls` (states, and the intervals of unknowns), `Phasors` (magnitudes, which are known by their
// squares), `Regulators` and `Banks` (the quantities, as fractions and as intervals), `Samples` (what an interval
// decides), `Probes` (both kinds of control), `Scripted` and `Circuits` (probes by the script, where the elements that
// a control names stand, and the controls of a circuit), `Roots` (square roots in whole numbers), `Decided` (the sample
// as a function, and its law).
//
// Modules: `probe` (what is known of a control), `scripted` (by its settings), `numbers` (of transformers and banks),
// `circuit` (a probe in a circuit that passed the tests of Solve), `all` (of all controls), `intervals`, `phasors`,
// `relay` (a regulator's voltage), `lineflow` (the reactive power that enters a line), `roots` (where magnitudes
// stand to edges), `regulator` and `bank` (what they want), `ends` (what the ends of an interval decide), `sample`
// and `bank_sample` (their samples), `controls` (`verdict`), `laws`.
#![tactic(auto)]

mod all;
mod bank;
mod bank_sample;
mod circuit;
mod controls;
mod ends;
mod intervals;
mod laws;
mod lineflow;
mod numbers;
mod phasors;
mod probe;
mod regulator;
mod relay;
mod roots;
mod sample;
mod scripted;

pub use all::probes;
pub use bank_sample::bank_verdict;
pub use controls::verdict;
pub use laws::{probes_law, sample_law};
pub use probe::{CapProbe, LineEnd, Measured, Probe, RegProbe};
pub use sample::regulator_verdict;
pub use scripted::{bank_probe, regulator_probe};

// Handed on from the crates below.
pub use fd_capctl::{CapState, away_law};
pub use fd_network::{
    BankStates, Blame, BuildFault, Circuit, ControlMode, Layout, Network, NodeName, Options,
    PhaseName, Positions, Powers, ReadyFault, Taps, network_law, passed_law, ready,
};
pub use fd_regctl::{
    Entry, Queue, RegState, Timing, Verdict, count_law, own_law, queue_law, room_law, sampled_law,
    spare_law, tap_law,
};
