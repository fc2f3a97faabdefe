// The elements of a script as data of the physics: lines, sources and loads.
//
// It promises that a line's data are exactly those that `specs/Lines.antt` states by its values in the script, a source's those of
// `specs/Sources.antt`, and a load's powers and voltages those of `specs/Powers.antt` and `specs/Loads.antt`; that all of
// them are in the ranges that the equations of these elements require; that Range is the answer exactly for a source by short-circuit power with
// more than 10^4 ohm, which the tests of Solve refuse too.
//
// Modules: `connections` has the connection of phases, `volts` has voltages of phases, `lines`, `sources` and `loads` the data of the
// elements, `powers` the powers of loads, `laws` says that a load has just one power.
#![tactic(auto)]

mod connections;
mod laws;
mod lines;
mod loads;
mod powers;
mod sources;
mod volts;

pub use connections::conn_of;
pub use laws::power_law;
pub use lines::line_data;
pub use loads::{load_phase, sole_model, zip_phase};
pub use powers::{LoadPower, load_power};
pub use sources::source_data;

// Handed on from the crates below.
pub use fd_line::{LineData, line_terms};
pub use fd_load::{is_load_past, zip_parts};
pub use fd_source::{SourceData, SourceTerms, source_terms};
