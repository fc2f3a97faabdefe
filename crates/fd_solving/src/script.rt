// The loop over a script's commands: each is done, and what it gives is handed over, before the next is read.
ghost use Rattle.std.specs.Prelude.{◌≡◌, ◌+◌, ◌≤◌};
ghost use Rattle.fd_pages.specs.fd_outside.Answers.{AgreesSince};
ghost use Rattle.fd_pages.specs.fd_outside.Files.{Files, held};
ghost use Rattle.dss_commands.specs.dss_model.Names.{bytes};
ghost use Rattle.fd_pages.specs.dss_script.Said.{end_in, said_in};
ghost use Rattle.fd_pages.specs.dss_script.Sessions.{remaining, room};
ghost use Rattle.fd_pages.specs.fd_outcome.History.{IsFrom};
ghost use Rattle.fd_pages.specs.fd_outcome.Runs.{Runs};
ghost use Rattle.fd_pages.specs.fd_outcome.Untold.{IsUntold};

use crate::line::Line;
use crate::print::{WANT_OF_MEMORY, print_fault};
use fd_pages::{Cause, Fault, Library, Session, SessionFault, Sink, said_law};
use std::alloc::Global;

/// Does the commands of a script and what a command line does behind them, prints what each gives in the command line's
/// style, and answers the exit status.
pub fn run_script<T: Line, L: Library, S: Sink>(
    alloc: Global,
    session: &mut Session,
    line: &mut T,
    lib: &mut L,
    out: &mut S,
) -> u8
    requires { T.weight line.old + room session.old ≤ 1_048_578 }
    ensures run { (files : Files) → AgreesSince files (L.answers lib.old) (L.answers lib.new)
        → Runs L.answers S.taken S.calls lib.old lib.new out.old out.new
        (λ h. IsFrom T.is_step T.last_name T.is_last (λ name. held files (bytes name)) (record {
          left = said_in (remaining files session.old);
          end = end_in (remaining files session.old);
          state = line.old;
        }) h) T.style T.tells result }
    ensures untold { IsUntold L.answers L.holds S.faults S.taken S.calls lib.old lib.new out.old out.new result }
{
    T::law();
    said_law();
    let mut begun = false;
    loop {
        match session.next(alloc, lib) {
            Ok(Some(command)) => {
                if let Some(status) = line.take(alloc, command, &mut begun, out) {
                    return status;
                }
            }
            Ok(None) => return line.finish(alloc, lib, begun, out),
            Err(SessionFault::Script { place, cause }) => {
                let cause = Cause::Script(cause);
                return print_fault(alloc, &Fault::Script { place, cause }, out);
            }
            Err(SessionFault::Read { name }) => {
                return print_fault(alloc, &Fault::Read { name }, out);
            }
            Err(SessionFault::Ended) => return WANT_OF_MEMORY,
            Err(SessionFault::NoMemory) => return WANT_OF_MEMORY,
        }
    }
}
