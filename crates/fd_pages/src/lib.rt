//! How the settles of a run are printed: as the records of a report, as the blocks of a certificate, or not at all.
//!
//! A way to print is a `Page`, with the style that it prints in. It gives the texts of an hour's settle, as the code
//! made it, and of the voltage bases of a circuit's buses, which are exactly those of the style; what opens them; and
//! what stands last. A settle's texts come in parts, those that each round has by itself and the last ones, so that one
//! block of a certificate is held at a time. Nothing is written here.
//!
//! Specs: `Hours`: the settle of an hour, as the code made it, and what of it can be printed; `Rounds`: its texts in
//! parts; `Bases`: voltage bases as events; `Lines`: the style of lines of text alone; `Places`: where controls stand
//! among a circuit's elements.
//!
//! - `page`: a way to print settles
//! - `controls`: the controls of a circuit
//! - `records`: the records of a settle; `pending`: of what still waits behind the last hour of a Solve
//! - `report`, `certificate`, `summary`: settles as records, as blocks of a certificate, not at all
#![tactic(auto)]

mod certificate;
mod controls;
mod page;
mod pending;
mod records;
mod report;
mod summary;

pub use certificate::Certificate;
pub use controls::is_control;
pub use page::{Page, SolvedHour};
pub use report::Report;
pub use summary::Summary;

// Handed on from the crates below.
pub use fd_bases::Layout;
pub use fd_outcome::{
    Cause, CertFileFault, Certified, ControlMode, Entry, Fault, Found, Ladder, LibFault, Library,
    Network, NetworkRows, Record, Round, Scale, Session, SessionFault, Sink, SinkFault, Solution,
    Widened, accepted_record, agreement_law, emit, first_loose, ladder_record, name_at, read_law,
    record, row_mismatches, said_law, said_room_law, short_records, size_text, status, status_law,
    upgrade, widen, widening_law,
};
pub use fd_settings::{Mode, Options, PlaceKind, next_positions, powers_at};
