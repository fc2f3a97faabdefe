//! The command lines `solve FILE` and `cert FILE`: the commands of a script are done, one after the other, and what
//! each gives is printed before the next is read.
//!
//! A Solve is done hour by hour. Each settle that a run came to is solved (`Headline`): each of its states is the one
//! that the procedure reaches, and meets the equations of the scripted circuit within the printed mismatches; every
//! state in its box that does so is within the radii; and its acts are those of the queue machine over any such
//! states. `solve` does the one history of a script, in the style of a page.
//!
//! The loop (`run_script`) asks a `Line` what it does with a command, and what behind the last one. Another command
//! line is another `Line`, over the parts here: `answer_to`, `take_command`, and the functions that hand records to
//! the sink.
//!
//! - `answer`: what a command comes to
//! - `controls`: the fault of an undecided sample of a control
//! - `faults`: the fault with which a run ends, by how a settle ended
//! - `hour`, `hours`: the hours of a Solve, each printed before the next is solved
//! - `standing`: what stands between two commands
//! - `step`: what one command comes to
//! - `print`: records handed to the sink
//! - `line`: what the loop asks of a command line
//! - `script`: the loop over a script's commands
//! - `tally`: what rounds come to
//! - `solving`: the command lines `solve` and `cert`
//! - `laws`: laws of the settles of a script
#![tactic(auto)]

mod answer;
mod controls;
mod faults;
mod hour;
mod hours;
mod laws;
mod line;
mod print;
mod script;
mod solving;
mod standing;
mod step;
mod tally;

pub use answer::Answer;
pub use hours::solve_hours;
pub use laws::{solution_law, solved_law};
pub use line::Line;
pub use print::{WANT_OF_MEMORY, print_bases, print_end, print_fault, print_last};
pub use script::run_script;
pub use solving::{solve, take_command};
pub use standing::{Standing, no_positions};
pub use step::answer_to;
pub use tally::Tally;

// Handed on from the crates below.
pub use dss_commands::{Circuit, Class, Command, ElementName, ModelError, Text, apply, limits_law};
pub use fd_daily::{
    BuildFault, Compute, Positions, Rule, hours_law, modest_law, network_law, next_law,
};
pub use fd_pages::{
    Cause, CertFileFault, Certificate, Certified, ControlMode, Entry, Fault, Found, Ladder, Layout,
    LibFault, Library, Mode, Network, NetworkRows, Options, Page, PlaceKind, Record, Report, Round,
    Session, Sink, Solution, SolvedHour, Summary, Widened, accepted_record, agreement_law,
    first_loose, ladder_record, name_at, next_positions, powers_at, read_law, row_mismatches,
    said_law, said_room_law, short_records, size_text, status_law, upgrade, widen, widening_law,
};
