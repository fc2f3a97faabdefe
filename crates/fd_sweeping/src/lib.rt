//! The command line `ladder MASTER`: a second method beside each Solve of a script.
//!
//! Each Solve is one solution in snapshot, of which no control takes part, at the positions that the script gives. It is
//! printed as `solve` does. Beside it Kersting's ladder sweep (`fd_ladder`) finds a state of the radial circuit without an
//! elimination and without an inverse, and a record says what it comes to: where both states agree, the sweep's meets the
//! equations within the greater mismatches of both, lies in the printed box, and is within the radius that these
//! mismatches give (`IsTrueSweep`).
//!
//! - `beside`: what a sweep comes to beside a certified state
//! - `page`: the report of a Solve with its sweep
//! - `sweeping`: the command line
//! - `laws`: what the settles and sweeps that are printed are (`swept_law`)
#![tactic(auto)]

mod beside;
mod laws;
mod page;
mod sweeping;

pub use laws::swept_law;
pub use page::LadderReport;
pub use sweeping::ladder;
