//! The program: certified power flow of the script that its words name, over real files and standard output.
//!
//! All that it does is the top call of `fd_app`, whose contract is its promise. `shipped` makes the real files and the
//! sink, and its contract says that all answers of the one and all bytes of the other are those of the top call for the
//! words behind the program's name, that each answer is what the system answered, and that the exit status is the one
//! that the top call answers. `main` hands it the words, the system and standard output; `.ci/checks` compares its
//! lines.
//!
//! - `ending`: how the program ends
//! - `shipped`: the program from its start to its end
#![tactic(auto)]

mod ending;
mod shipped;

use shipped::shipped;
use std::env;
use std::process::ExitCode;

fn main(rt: HostRuntime) -> ExitCode {
    let (code, _files, _out) = shipped(rt.alloc(), env::args(&rt), rt, rt.stdout());
    code
}
