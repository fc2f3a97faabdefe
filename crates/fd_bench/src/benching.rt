// The command line `bench NUMBER SECTIONS`.
ghost use Rattle.std.specs.Prelude.{◌≡◌, ◌++◌, ◌∷◌, ◌≤◌, [], IfOk, true};
ghost use Rattle.fd_gen.specs.fd_outside.Causes.{Rose};
ghost use Rattle.fd_solving.specs.fd_outcome.Untold.{Answers};
ghost use Rattle.fd_solving.specs.fd_pages.Lines.{lines_of_text};
ghost use Rattle.fd_solving.specs.Tallies.{no_rounds};
ghost use Rattle.fd_solving.specs.Scripts.{first_standing};
ghost use Rattle.fd_solving.specs.Weights.{weight};
ghost use Rattle.fd_bench.specs.Alone.{RunsAlone};
ghost use Rattle.fd_bench.specs.Bench.{lines_alone, tally_text, IsBenchHistory};
ghost use Rattle.fd_bench.specs.Benching.{IsBenchLast, IsBenchStep, bench_at, no_bench_name};

use crate::feeder::{FEEDER_NAME, feeder_files};
use fd_gen::{Bytes, Library, NeverFails, Record, Sink};
use fd_solving::{
    Command, Line, Session, Standing, Summary, Tally, WANT_OF_MEMORY, print_end, run_script,
    said_law, size_text, take_command,
};
use std::alloc::{AllocError, Global};
use std::marker::Model;

// What stands between two commands, and what the rounds so far come to.
#[derive(Drop)]
struct BenchState {
    standing: Standing<Summary>,
    tally: Tally,
    sections: u32,
}

impl Model for BenchState {
    ghost use Rattle.fd_solving.specs.Tallies.{HasRoom};
    ghost use Rattle.fd_bench.specs.Benching.{BenchView};

    ghost Value = { BenchView };

    ghost view = { λ s. record { standing = s.standing; tally = s.tally; sections = s.sections } };

    ghost invariant = { λ s. HasRoom s.tally s.standing.settled };
}

impl BenchState {
    fn new(alloc: Global, sections: u32) -> BenchState
        ensures { result ≡ bench_at sections no_rounds first_standing }
    {
        BenchState {
            standing: Standing::new(alloc),
            tally: Tally::none(),
            sections,
        }
    }
}

// The record of what rounds come to.
#[tactic(auto, unfolding(crate::specs::Bench::tally_text))]
fn tally_record(alloc: Global, sections: u32, tally: &Tally) -> Result<Record, AllocError>
    ensures { IfOk result (λ r. r.bytes ≡ tally_text sections tally.now ++ 10 ∷ []) }
{
    let Tally {
        unknowns,
        solutions,
        greatest,
    } = tally;
    let text = format!(in alloc; "bench,{sections},{unknowns},{solutions},")?;
    let mut bytes = text.into_bytes();
    bytes.extend_from_slice(size_text(alloc, *greatest)?.as_slice())?;
    bytes.push(b'\n')?;
    Ok(Record {
        bytes: Bytes::new(bytes),
    })
}

/// A command is done as `solve` does it, and behind the last the record is printed.
impl Line for BenchState {
    ghost is_step = { λ command s step. IsBenchStep command s step };

    ghost last_name = { λ s. no_bench_name s };

    ghost is_last = { λ s found h. IsBenchLast s found h };

    ghost tells = { true };

    ghost style = { lines_of_text };

    ghost weight = { λ s. weight s.standing.circuit };

    fn law() {}

    fn take<S: Sink>(
        &mut self,
        alloc: Global,
        command: Command,
        begun: &mut bool,
        out: &mut S,
    ) -> Option<u8> {
        take_command(
            alloc,
            &mut self.standing,
            &mut self.tally,
            &command,
            begun,
            out,
        )
    }

    fn finish<L: Library, S: Sink>(
        &mut self,
        alloc: Global,
        _lib: &mut L,
        _begun: bool,
        out: &mut S,
    ) -> u8 {
        let Ok(text) = tally_record(alloc, self.sections, &self.tally) else {
            return WANT_OF_MEMORY;
        };
        print_end(alloc, &[text], out)
    }
}

/// Solves the script of a feeder of so many sections from a number, prints one record of what its rounds come to, or
/// that of its fault, and answers the exit status.
pub fn bench<S: Sink>(alloc: Global, number: u64, sections: u32, out: &mut S) -> u8
    requires { 1 ≤ sections }
    ensures run { RunsAlone S.taken S.calls out.old out.new (λ h. IsBenchHistory number sections h) lines_alone true result }
    ensures answers { Answers S.taken S.calls out.old out.new result }
    ensures usage { result ≡ 2 → ⊥ }
    ensures read { result ≡ 4 → ⊥ }
    ensures write { result ≡ 5 → Rose (S.faults out.old) (S.faults out.new) }
{
    said_law();
    let Ok(files) = feeder_files(alloc, number, sections) else {
        return WANT_OF_MEMORY;
    };
    let Ok(mut session) = Session::open(alloc, FEEDER_NAME) else {
        return WANT_OF_MEMORY;
    };
    let mut lib = NeverFails::new(files);
    let mut line = BenchState::new(alloc, sections);
    run_script(alloc, &mut session, &mut line, &mut lib, out)
}
