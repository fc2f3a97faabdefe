//! The command line `check SCRIPT CERTIFICATE`: a script's commands are gathered, and behind the last of them its
//! certificate is judged on the networks of its Solves. Nothing is solved.
//!
//! `check` does the one history of this: the names of the script's files are asked for, then that of the certificate,
//! and what is held under it comes to exactly one answer, which is printed. Where it is accepted, each of its blocks
//! is sound on the network of its round, and its acts are those of the queue machine (`checked_law`).
//!
//! - `gathered`: what is gathered of a script
//! - `judged`: what the certificate comes to
//! - `checking`: the command line
//! - `laws`: what it says of a certificate that it is accepted
#![tactic(auto)]

mod checking;
mod gathered;
mod judged;
mod laws;

pub use checking::check;
pub use laws::checked_law;

// Handed on from the crates below.
pub use fd_check::{
    certificate_law, enclosure_law, hours_law, kept_law, limits_law, modest_law, next_law,
    passed_law, rule_law, sound_at_law,
};
pub use fd_solving::{
    Certificate, Fault, Report, WANT_OF_MEMORY, print_fault, read_law, said_room_law, solve,
    solved_law, status_law,
};
