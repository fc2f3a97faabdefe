//! Cases of the top call as data: each is run over files in memory and a sink in memory, some of whose reads and writes fail, and what the
//! sink took and the exit status are compared with what the case expects.
//!
//! The words are the names of files of cases. The program names each case that comes to something else, with what it came to, and ends
//! with the number of cases. It proves nothing: it shows that what no clause says is so, as that memory is enough.
//!
//! - `case`: a case, and how it is run
//! - `reading`: the text form of cases
#![tactic(auto)]

mod case;
mod reading;

use case::{Case, How, outcome_of};
use reading::{RowsFault, cases_of};
use std::env::Env;
use std::process::ExitCode;
use std::rt::Files;
use std::{env, fs};

// Whether a run of a case comes to what is due; else what it comes to is printed.
fn holds(rt: &(impl Print + AllocGlobal), case: &Case, how: How) -> Result<bool, RowsFault> {
    let outcome = outcome_of(rt.alloc(), case, how)?;
    if case.is_due(how, &outcome) {
        return Ok(true);
    }
    println!(rt; "{}, {how}: status {}, and", case.name, outcome.status)?;
    rt.write_all(outcome.text.as_slice())?;
    Ok(false)
}

// Whether a case comes to what is due with each shorter length of the file that it cuts.
fn holds_at_lengths(rt: &(impl Print + AllocGlobal), case: &Case) -> Result<bool, RowsFault> {
    let mut all = true;
    for length in 0..case.shorter_lengths() {
        let how = How {
            length,
            ..How::whole()
        };
        all = holds(rt, case, how)? && all;
    }
    Ok(all)
}

// Whether a case comes to what is due with each of its writes failing.
fn holds_at_writes(rt: &(impl Print + AllocGlobal), case: &Case) -> Result<bool, RowsFault> {
    let mut all = true;
    let mut number = 0u32;
    for _write in 0..case.writes() {
        number = number.saturating_add(1);
        let how = How {
            failing_write: Some(number),
            ..How::whole()
        };
        all = holds(rt, case, how)? && all;
    }
    Ok(all)
}

// Whether a case comes to what is due with each of its reads failing.
fn holds_at_reads(rt: &(impl Print + AllocGlobal), case: &Case) -> Result<bool, RowsFault> {
    let mut all = true;
    let mut number = 0u32;
    for _read in 0..case.reads() {
        number = number.saturating_add(1);
        let how = How {
            failing_read: Some(number),
            ..How::whole()
        };
        all = holds(rt, case, how)? && all;
    }
    Ok(all)
}

fn holds_always(rt: &(impl Print + AllocGlobal), case: &Case) -> Result<bool, RowsFault> {
    let whole = holds(rt, case, How::whole())?;
    let shorter = holds_at_lengths(rt, case)?;
    let written = holds_at_writes(rt, case)?;
    let read = holds_at_reads(rt, case)?;
    Ok(whole && shorter && written && read)
}

/// How many cases there are, how many came to what they expect, and how many runs they have.
#[derive(Clone, Copy)]
struct Count {
    held: usize,
    cases: usize,
    runs: usize,
}

// Runs the cases of a file.
fn run_file(rt: &(impl Files + Print + AllocGlobal), name: &str) -> Result<Count, RowsFault> {
    let text = fs::read_to_string(rt, name)?;
    let cases = cases_of(rt.alloc(), text.as_str())?;
    let mut held = 0usize;
    let mut runs = 0usize;
    for case in &cases {
        runs = runs.saturating_add(case.runs());
        if holds_always(rt, case)? {
            held = held.saturating_add(1);
        }
    }
    println!(rt; "{name}: {held} of {}", cases.len())?;
    Ok(Count {
        held,
        cases: cases.len(),
        runs,
    })
}

// Whether each case of each file came to what it expects.
fn run_files(rt: &(impl Env + Files + Print + AllocGlobal)) -> Result<bool, RowsFault> {
    let mut all = Count {
        held: 0,
        cases: 0,
        runs: 0,
    };
    for name in env::args(rt)?.skip(1) {
        let count = run_file(rt, name.as_str())?;
        all.held = all.held.saturating_add(count.held);
        all.cases = all.cases.saturating_add(count.cases);
        all.runs = all.runs.saturating_add(count.runs);
    }
    println!(rt; "{} of {} cases, in {} runs", all.held, all.cases, all.runs)?;
    Ok(all.held == all.cases)
}

fn main(rt: HostRuntime) -> ExitCode {
    match run_files(&rt) {
        Ok(true) => ExitCode::SUCCESS,
        Ok(false) => ExitCode::FAILURE,
        Err(fault) => {
            let _ = println!(rt; "{fault}");
            ExitCode::FAILURE
        }
    }
}
