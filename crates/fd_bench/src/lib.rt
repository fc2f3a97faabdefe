//! The command lines `gen NUMBER SECTIONS` and `bench NUMBER SECTIONS`: the script of a feeder from a number, written or
//! solved. Nothing is asked of a library.
//!
//! `write_script` writes the lines of the script. `bench` solves it as `solve` does, over a library in memory that holds
//! it alone, and prints one record of what its rounds come to, or that of its fault.
//!
//! - `feeder`: the script of a feeder from a number, which `gen` writes
//! - `benching`: the command line that prints what the rounds of such a script come to
#![tactic(auto)]

mod benching;
mod feeder;

pub use benching::bench;

// Handed on from the crates below.
pub use fd_gen::{Bytes, FileEntry, FolderLibrary, Library, MemLibrary, MemSink, Sink, StdSink};
pub use feeder::write_script;
