//! The script of a feeder from a number: a circuit with one linecode, and sections that are each a line and a load at
//! its end.
//!
//! The number is the first of a sequence of numbers below 2^64, in which x is followed by 6364136223846793005 x +
//! 1442695040888963407 modulo 2^64, as in Knuth's MMIX. A draw goes on to the next number and takes its upper 31 bits.
//! Section k, counted from 1, takes three draws in turn. The first, modulo k, is the number of the section at whose end
//! its line begins, or 0 for the source's bus; the second, modulo 200, is what the line has over 100 feet; the third,
//! modulo 20, is what the load has over 5 kW.
//!
//! In `specs/`, `Draws` has the sequence and `Script` the lines.
//!
//! - `draws`: the sequence
//! - `script`: the lines of the script, one record each
#![tactic(auto)]

mod draws;
mod script;

pub use script::generate;

// Handed on from the crates below.
pub use fd_outside::{
    Bytes, FileEntry, FolderLibrary, Library, MemLibrary, MemSink, NeverFails, Record, Sink,
    StdSink,
};
