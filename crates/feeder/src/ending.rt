// How the program ends.
ghost use Rattle.std.specs.Prelude.{drop, map, string_bytes};
ghost use Rattle.std.specs.Process.{exit_status};
ghost use Rattle.std.specs.Vec.Iter.{into_iter_items};
ghost use Rattle.fd_app.specs.fd_words.Words.{form_of};
ghost use Rattle.feeder.specs.Ending.{EndsAs, IsRun};
ghost use Rattle.feeder.specs.Given.{given};

use fd_app::{Library, Sink, run};
use std::alloc::Global;
use std::env::Args;
use std::io;
use std::io::ErrorKind;
use std::process::ExitCode;

const WANT_OF_MEMORY: u8 = 1;

// The top call, with all that it promises.
fn run_words<L: Library, S: Sink>(alloc: Global, words: &[String], lib: &mut L, out: &mut S) -> u8
    ensures { IsRun L.answers L.holds S.faults S.taken S.calls lib.old lib.new out.old out.new
        (form_of (map string_bytes words.now)) result }
{
    run(alloc, words, lib, out)
}

// Does what the words behind the program's name say. No form has more than four, so a fifth is enough to know.
fn do_words<L: Library, S: Sink>(alloc: Global, mut args: Args, lib: &mut L, out: &mut S) -> u8
    ensures { IsRun L.answers L.holds S.faults S.taken S.calls lib.old lib.new out.old out.new
        (form_of (map string_bytes (drop 1 (into_iter_items args)))) result }
{
    let _name = args.next();
    let Some(first) = args.next() else {
        return run_words(alloc, &[], lib, out);
    };
    let Some(second) = args.next() else {
        return run_words(alloc, &[first], lib, out);
    };
    let Some(third) = args.next() else {
        return run_words(alloc, &[first, second], lib, out);
    };
    let Some(fourth) = args.next() else {
        return run_words(alloc, &[first, second, third], lib, out);
    };
    let Some(fifth) = args.next() else {
        return run_words(alloc, &[first, second, third, fourth], lib, out);
    };
    run_words(alloc, &[first, second, third, fourth, fifth], lib, out)
}

// Does what a command line says, and answers the exit status. Words that are no text are handed on as none.
fn status_of<L: Library, S: Sink>(
    alloc: Global,
    args: io::Result<Args>,
    lib: &mut L,
    out: &mut S,
) -> u8
    ensures { EndsAs L.answers L.holds S.faults S.taken S.calls lib.old lib.new out.old out.new (given args) result }
{
    match args {
        Ok(args) => do_words(alloc, args, lib, out),
        Err(e) => {
            if e.kind() == ErrorKind::OutOfMemory {
                WANT_OF_MEMORY
            } else {
                run_words(alloc, &[], lib, out)
            }
        }
    }
}

/// Does what a command line says by the top call, and ends with the status that it answers. The words are those behind
/// the program's name; where one of them is no text there are none, which is no form of a command line. Before the top
/// call no memory is asked for, so want of memory is then the system's word alone.
pub(crate) fn end_of<L: Library, S: Sink>(
    alloc: Global,
    args: io::Result<Args>,
    lib: &mut L,
    out: &mut S,
) -> ExitCode
    ensures { EndsAs L.answers L.holds S.faults S.taken S.calls lib.old lib.new out.old out.new (given args)
        (exit_status result) }
{
    ExitCode::from(status_of(alloc, args, lib, out))
}
