//! The top call: the words of a command line and a library of files in, records and an exit status out.
//!
//! Words have exactly one history over files (`forms_law`). Over all files that agree with what the library answered
//! in a call, real files among them, `run` promises that it does its calls in order, all of them or a front where
//! memory runs out, a write fails or a read does, and that what it prints is true (specs/Promise.antt): each printed
//! state meets the equations of its circuit within the printed mismatches; every state in its trust box that does so is
//! within the printed radii, with sizes from low to high; and the acts are those that the queue machine makes of any
//! such states, through all hours of all Solves. What `check` accepts is a certificate of the script's Solves, whoever
//! made it, in the same words; what `cert` writes to its end is accepted. And whatever is answered, `run` says how it
//! ends.
//!
//! Where a library tells what it holds, the promise is over just these files (`told_law`). The status is that of the
//! history's end, but for want of memory, a failed write or a failed read (`due_law`). Where a run of `cert` answers 0,
//! what it wrote is accepted (`written_law`), and `check` of the same script accepts it (`round_trip_law`).
//!
//! - `top`: the call itself
//! - `accepted`: the laws of what `cert` writes, no code
//! - `meaning`: the law of what `check` accepts, no code
//!
//! Specs: `Promise`, what `run` promises, with `Printing`, what a call prints, asks and writes, and `Sentences`, what is true
//! of the words beside a script's; `Told`, the promise over a library that tells what it holds; `Run`, the history and the
//! manner of a command line; `Steady` and `Waiting`, the acts of a whole run over any states, and what waits at the end of
//! each Solve; `Rounds`, what is said of each printed round; `Meaning`, what an accepted certificate means; `Solves`, the
//! Solves of a script; `Printed`, the bytes and the rounds of a history; `Accepted` and `Written`, what `cert` writes.
#![tactic(auto)]

mod accepted;
mod meaning;
mod top;

pub use accepted::{cert_law, round_trip_law, written_law};
pub use meaning::accepted_law;
pub use top::{due_law, forms_law, run, told_law};

// Handed on from the crates below.
pub use fd_bench::{Bytes, FileEntry, FolderLibrary, Library, MemLibrary, MemSink, Sink, StdSink};
pub use fd_checking::checked_law;
