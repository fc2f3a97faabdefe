//! What a command line does: definitions and laws alone.
//!
//! What a script says is a list, a name asked or a command given, and an end. What a command line makes of it is its
//! history: the events in order, a name asked or a settle, and an end, which is a fault or none. It is always followed
//! to its end, and there is exactly one (`history_law`). A history is printed in a style as one list of calls, reads
//! and writes in order. A failing read cuts the calls, and not the history (`read_law`); want of memory leaves a front
//! of whole calls, a failed write a front and a torn text (`cut_law`). The status is that of the end, unless one of
//! these came (`due_law`, `status_law`).
//!
//! A command line differs from another in what a command comes to (`Step`), in the tail behind the last command, and in
//! its style.
//!
//! Specs: `Statuses`; `Settles`, `Events`, `Work`, `History`; `Pages`, `Calls`; `Done`, `Runs`: what a run promises;
//! `Laws`; and for the loop over a script's commands `Way`, its invariant, `Behind` and `Parts`, what its parts promise
//! it.
#![tactic(auto)]

mod laws;

pub use laws::{Work, cut_law, due_law, history_law, names_law, read_law, status_law};

// Handed on from the crates below.
pub use fd_certfile::{
    Act, CertFileFault, Found, LibFault, Library, Record, Round, Sink, SinkFault, emit, end_record,
    header_record, shared, upgrade, write_block,
};
pub use fd_report::{
    Cause, Certified, ControlMode, Entry, Fault, Ladder, Network, NetworkRows, Position, Probe,
    RecordWriter, RegProbe, Scale, Session, SessionFault, Solution, Widened, accepted_record,
    act_record, agreement_law, bank_record, base_record, first_loose, ladder_record, name_at,
    pending_record, probes_law, record, records, row_mismatches, said_law, said_room_law,
    short_records, size_text, status, tap_record, widen, widening_law,
};
