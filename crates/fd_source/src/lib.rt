// The contributions of a source to the rows of a network, and the impedances that its short-circuit powers give.
//
// It promises that the contributions and constants of a source add up to its equations (a voltage behind an impedance), in
// every row and at every state, that both lists are exactly those that `specs/Equations.antt` states, that the
// impedances are the greatest that keep the stated sizes (`specs/Powers.antt`), and that Range is the answer exactly where a
// contribution is past 2^54 units of 2^-40, or a short-circuit impedance above 10^4 ohm.
//
// Modules: `data` has the types, `resistance` finds the greatest resistance, `ohms` the impedances, `voltage` the parts of the
// phase voltages, `terms` the contributions and constants, `laws` what is true of the stated lists.
#![tactic(auto)]

mod data;
mod laws;
mod ohms;
mod resistance;
mod terms;
mod voltage;

pub use data::{Ohms, ShortCircuit, SourceData, SourceTerms};
pub use laws::{ohms_law, source_law};
pub use ohms::source_ohms;
pub use terms::{impedance, source_terms};

// Handed on from the crates below.
pub use fd_system::LoadPhase;
