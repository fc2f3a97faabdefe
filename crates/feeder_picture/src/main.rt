//! The program: the picture of a report, on standard output.
//!
//! It reads the file that its one word names, and writes the page that `fd_picture` draws of it, by one write. Where there is no picture it
//! writes one line on standard error that says why, and nothing on standard output, and ends with status 1. `main` hands the word, the
//! real files and standard output to `draw_file`, whose contract says which page is written; what stands on standard error has no contract.
//!
//! - `drawing`: from a file to its picture
//! - `fault`: why there is no picture
#![tactic(auto)]

mod drawing;
mod fault;

use drawing::draw_words;
use fd_picture::{FolderLibrary, StdSink};
use std::env;
use std::process::ExitCode;

fn main(rt: HostRuntime) -> ExitCode {
    let mut lib = FolderLibrary::new(rt);
    let mut out = StdSink::new(rt.stdout());
    match draw_words(rt.alloc(), env::args(&rt), &mut lib, &mut out) {
        Ok(()) => ExitCode::SUCCESS,
        Err(fault) => {
            let _ = eprintln!(rt; "feeder_picture: {fault}");
            ExitCode::FAILURE
        }
    }
}
