//! Checks certificates, block by block, on the networks of a script's Solves.
//!
//! `check_script` promises the answer that the definitions give to the bytes of a certificate for the Solves of a script's
//! commands: the number of blocks where it is accepted, or the line and the rule that come first. It takes the blocks of
//! one Solve after another from a reader: each hour is one settle whose states are those that the blocks claim, and then
//! the acts of the blocks are compared with those of the settle's rounds. What it says of a certificate that it is accepted
//! is `accepted_law`.
//!
//! - `script`: the Solves of a script
//! - `hours`: the hours of a Solve
//! - `compare`: the acts of an hour's blocks beside those of its rounds
//! - `ending`: the end of a certificate
//! - `fault`: why a certificate isn't accepted
//! - `laws`: the blocks of an accepted certificate
#![tactic(auto)]

mod compare;
mod ending;
mod fault;
mod hours;
mod laws;
mod script;

pub use fault::CheckFault;
pub use laws::accepted_law;
pub use script::check_script;

// Handed on from the crates below.
pub use dss_commands::{Circuit, Command, Text, limits_law};
pub use fd_certfile::{Found, LibFault, Library, Sink, certificate_law, rule_law};
pub use fd_daily::{
    Rule, enclosure_law, hours_law, kept_law, modest_law, next_law, passed_law, sound_at_law,
};
