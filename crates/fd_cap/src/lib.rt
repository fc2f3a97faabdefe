// The contributions of a capacitor bank to the rows of a network, its admittance, and what it draws at nominal voltage.
//
// It promises that the contributions of a bank add up to its equations (each phase of a closed bank draws j Q / V^2 times its
// voltage, an open bank draws nothing), in every row and at every state, that the list is exactly the one that
// `specs/Capacitor.antt` states, with denominators up to 10^32 and at most 24 contributions, and that Range is the answer exactly
// where one of them is past 2^54 units of 2^-40. What a bank draws is exactly Q / V of each phase, rounded up.
//
// Modules: `data` has the bank's type, `numbers` its power and its voltages, `terms` the contributions, `draw` what it draws, `laws`
// what is true of the stated list.
#![tactic(auto)]

mod data;
mod draw;
mod laws;
mod numbers;
mod terms;

pub use data::CapData;
pub use draw::cap_draw;
pub use laws::cap_law;
pub use terms::{admittance, cap_terms, cap_terms_into};
