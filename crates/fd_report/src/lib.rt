//! The records of a solved network, of its controls, and those of the faults in which a command line can end.
//!
//! `records` promises exactly the records of one solution, in order: the solution's, one for each node, one for each
//! branch phase and one for each magnitude, each with its own name, its own parts of the state, their radius and box,
//! and the mismatches of its own rows. Each fault's record has exactly the fields of its definition. A record is the
//! text of its fields as csv writes them. Want of memory is the one error.
//!
//! - `names`: the names of nodes, elements and unknowns
//! - `line`: a record of its fields, written by a writer that many records can share
//! - `solution`: the numbers of a solution
//! - `sizes`: the least and the greatest size of a phasor within its radii
//! - `laws`: what these sizes say of other states
//! - `texts`: the numbers of an unknown as texts
//! - `report`: the records of a solution
//! - `controls`: the records of acts, of taps and of banks
//! - `bases`: the records of voltage bases
//! - `shorts`: the records of a short circuit
//! - `accepted`: the record of an accepted certificate
//! - `ladders`: the record of a ladder sweep
//! - `faults`: the records of faults
#![tactic(auto)]

mod accepted;
mod bases;
mod controls;
mod faults;
mod ladders;
mod laws;
mod line;
mod names;
mod report;
mod shorts;
mod sizes;
mod solution;
mod texts;

pub use accepted::accepted_record;
pub use bases::base_record;
pub use controls::{Position, act_record, bank_record, pending_record, tap_record};
pub use faults::{Cause, Fault, Scale, name_at, record, status};
pub use ladders::{Ladder, ladder_record};
pub use laws::size_law;
pub use line::RecordWriter;
pub use report::records;
pub use shorts::short_records;
pub use solution::Solution;

// Handed on from the crates below.
pub use dss_script::{Session, SessionFault, said_law, said_room_law, size_text};
pub use fd_cert::{
    Certified, NetworkRows, Widened, agreement_law, first_loose, row_mismatches, widen,
    widening_law,
};
pub use fd_sample::{ControlMode, Entry, Network, Probe, RegProbe, probes_law};
