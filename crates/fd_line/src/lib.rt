// The contributions of a line to the rows of a network, and the entries of its impedance and its admittance.
//
// It promises that the contributions of a line add up to its equations (the pi model: the series impedance between its two
// ends, and half of the shunt capacitance at each end), in every row and at every state, that the list is exactly
// the one that `specs/Line.antt` states, with denominators up to 10^32 and at most 32 contributions a phase, and that Range is the
// answer exactly where one of them is past 2^54 units of 2^-40.
//
// Modules: `data` has the types, `totals` the impedance and the capacitance of the whole line, `terms` the contributions, `laws` what
// is true of the stated list.
#![tactic(auto)]

mod data;
mod laws;
mod terms;
mod totals;

pub use data::{ChargeForm, Entries, LineData, LineForm};
pub use laws::line_law;
pub use terms::{line_terms, susceptance};
pub use totals::{reactance, resistance};

// Handed on from the crates below.
pub use fd_system::{LoadPhase, phase_volts};
