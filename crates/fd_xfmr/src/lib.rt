// The contributions of a transformer to the rows of a network, and the numbers that they come from.
//
// It promises that the contributions of a transformer add up to its equations (an ideal transformer with a leakage impedance at
// its second winding, both scaled by the taps), in every row and at every state, that the list is exactly the one that
// `specs/Transformer.antt` states, with denominators up to 10^32 and at most 60 contributions, and that Range is the answer exactly
// where one of them is past 2^54 units of 2^-40.
//
// Modules: `data` has the transformer's type, `pairs` the nodes of each phase, `leakage` the leakage impedance and the ratio at the
// taps, `terms` the contributions, `laws` what is true of the stated list.
#![tactic(auto)]

mod data;
mod laws;
mod leakage;
mod pairs;
mod terms;

pub use data::XfmrData;
pub use laws::xfmr_law;
pub use leakage::{Coefficients, coefficients_at};
pub use pairs::winding_pairs;
pub use terms::{PhaseAt, phase_at, xfmr_terms, xfmr_terms_into};

// Handed on from the crates below.
pub use fd_system::{
    Constant, LoadAt, LoadPhase, NodePair, Stamp, add_shunt, phase_pair, phase_pairs, phase_volts,
};
