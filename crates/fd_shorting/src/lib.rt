//! The command line `fault MASTER BUS KIND`: the currents of a short circuit, with bounds that hold for every state, of
//! whatever size.
//!
//! A script is read to its end; its Solves set options and solve nothing. Then the tests of Solve are made, and the
//! circuit of the short circuit (`fd_fault`) is solved once, as a snapshot at the script's positions. Its report ends with
//! a record for each phase of the fault. The circuit has no Load, so its network is linear, and its certificate holds for
//! all states and not for those of a box alone (`IsStudy`).
//!
//! - `page`: the report of a short circuit
//! - `shorting`: the command line
//! - `laws`: what a short circuit that is printed is (`studied_law`)
#![tactic(auto)]

mod laws;
mod page;
mod shorting;

pub use laws::studied_law;
pub use page::ShortReport;
pub use shorting::fault;

// Handed on from the crates below.
pub use fd_fault::Kind;
