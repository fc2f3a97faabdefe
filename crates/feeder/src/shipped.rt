// The program from its start to its end.
ghost use Rattle.std.specs.Process.{exit_status};
ghost use Rattle.fd_app.specs.fd_outside.Folder.{asked_of_system};
ghost use Rattle.fd_app.specs.fd_outside.Reading.{AreReads};
ghost use Rattle.feeder.specs.Ending.{FromStart};
ghost use Rattle.feeder.specs.Given.{given};

use crate::ending::end_of;
use fd_app::{FolderLibrary, Library, Sink, StdSink};
use std::alloc::Global;
use std::env::Args;
use std::io;
use std::io::Write;
use std::process::ExitCode;
use std::rt::Files;

/// The program over real files and a writer, from their start to its end. All answers of the library and all bytes that
/// the sink took are those of the top call, so no file is asked for before it or beside it; and each answer is what the
/// system answered, which was asked for nothing else.
pub(crate) fn shipped<R: Files, W: Write>(
    alloc: Global,
    args: io::Result<Args>,
    runtime: R,
    writer: W,
) -> (ExitCode, FolderLibrary<R>, StdSink<W>)
    ensures run { FromStart ⟦<FolderLibrary<R> as Library>⟧.answers ⟦<FolderLibrary<R> as Library>⟧.holds
        ⟦<StdSink<W> as Sink>⟧.faults ⟦<StdSink<W> as Sink>⟧.taken ⟦<StdSink<W> as Sink>⟧.calls result.1 result.2
        (given args) (exit_status result.0) }
    ensures system { ∥ AreReads (⟦<FolderLibrary<R> as Library>⟧.answers result.1) (asked_of_system result.1) ∥₁ }
{
    let mut lib = FolderLibrary::new(runtime);
    let mut out = StdSink::new(writer);
    let code = end_of(alloc, args, &mut lib, &mut out);
    lib.answers_are_reads();
    (code, lib, out)
}
