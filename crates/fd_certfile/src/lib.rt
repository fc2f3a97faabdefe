//! The text of certificates: what is written for a round, and how it is read again.
//!
//! A round is written as the lines of its block, which are read again as exactly that block and as nothing else,
//! whatever lines that are no acts follow (`write_block`). `CertReader` gives the blocks of a certificate one after
//! another: exactly the next one where it is in the grammar and has the numbers that are due, and else exactly the line
//! and the rule that is broken. It reads in one pass, holds the bytes by reference, and takes storage only for the size
//! that is due; its other calls take no memory. As a `Solver` it gives the certified state that the next block claims,
//! where the rules hold of it on the network (`solve`), so a settle over it takes its states from the text. The bytes may
//! come from anyone.
//!
//! That what is written is read as exactly that, that a refused line is the first with which no block begins, that the
//! rule which is named is the first that is broken, that a block for which the rules hold makes a sound claim, and that
//! bytes have exactly one answer, are laws of the definitions.
//!
//! - `grammar`: laws of the grammar
//! - `rule`: laws of the rules, and of what a certificate comes to
//! - `texts`: the texts of rows, and of the first and the last line
//! - `write`: the lines of a round
//! - `upgrades`: a certificate brought over to version 2
//! - `version`: the versions
//! - `line`: a line
//! - `cells`: numbers in 64 bits, and beside them those that need more
//! - `row`: a row of an inverse, read into cells
//! - `block`: unknowns, rows and acts of a block
//! - `ahead`: a block that is read ahead
//! - `claim`: the claim that a block's numbers are read as, tested on a network
//! - `claimed_acts`: the acts of a block beside those that were made
//! - `ending`: whether a certificate ends
//! - `reader`: the reader
//! - `fault`: why a certificate is refused
#![tactic(auto)]

mod ahead;
mod block;
mod cells;
mod claim;
mod claimed_acts;
mod ending;
mod fault;
mod grammar;
mod line;
mod reader;
mod row;
mod rule;
mod texts;
mod upgrades;
mod version;
mod write;

pub use block::Part;
pub use fault::CertFileFault;
pub use grammar::{
    block_cases, block_law, certificate_law, line_law, row_law, sparse_rows, text_law,
};
pub use reader::{CertReader, Claimed};
pub use rule::{
    answers_law, given_law, rule_cases, rule_law, solving_law, sound_law, verdict_cases,
};
pub use texts::{end_record, header_record};
pub use upgrades::{upgrade, upgrade_law};
pub use version::Version;
pub use write::write_block;

// Handed on from the crates below.
pub use fd_lines::{Found, LibFault, Library, Record, Sink, SinkFault, emit, number_law};
pub use fd_settle::{
    Act, Ball, CapProbe, CapState, CertFault, Certified, Dense, Entry, Limits, Measured, Network,
    NetworkRows, Point, Queue, RegProbe, RegState, Round, Rows, Rule, Solver, Verdict,
    bank_verdict, boxed, certify, ready, regulator_verdict, shared,
};
