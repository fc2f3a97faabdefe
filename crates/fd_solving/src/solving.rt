// The command lines `solve FILE` and `cert FILE`.
ghost use Rattle.std.specs.Prelude.{◌≡◌, ◌+◌, ◌≤◌, [], IfSome, None};
ghost use Rattle.std.specs.Str.{chars};
ghost use Rattle.fd_pages.specs.fd_outside.Answers.{AgreesSince};
ghost use Rattle.fd_pages.specs.fd_outside.Causes.{Rose};
ghost use Rattle.fd_pages.specs.fd_outside.Files.{Files};
ghost use Rattle.fd_pages.specs.dss_script.Said.{said_of};
ghost use Rattle.fd_pages.specs.dss_script.Sessions.{cost};
ghost use Rattle.fd_pages.specs.fd_outcome.Behind.{closes};
ghost use Rattle.fd_pages.specs.fd_outcome.Events.{finishes};
ghost use Rattle.fd_pages.specs.fd_outcome.Parts.{EndsAt};
ghost use Rattle.fd_pages.specs.fd_outcome.Runs.{Runs};
ghost use Rattle.fd_pages.specs.fd_outcome.Untold.{IsUntold};
ghost use Rattle.fd_solving.specs.Tallies.{GoesOnTallied, HasRoom};
ghost use Rattle.fd_solving.specs.Commands.{IsStep};
ghost use Rattle.fd_solving.specs.Scripts.{IsScriptHistory};
ghost use Rattle.fd_solving.specs.Weights.{weight};

use crate::answer::Answer;
use crate::hours::solve_hours;
use crate::line::Line;
use crate::print::{WANT_OF_MEMORY, print_bases, print_fault, print_last};
use crate::script::run_script;
use crate::standing::Standing;
use crate::step::answer_to;
use crate::tally::Tally;
use dss_commands::Command;
use fd_pages::{Library, Page, Session, Sink, said_law};
use std::alloc::Global;

/// Does a command, hands over what it gives, and adds its rounds to the tally. An answer ends the run. `begun` tells
/// whether a text was written before.
pub fn take_command<P: Page, S: Sink>(
    alloc: Global,
    standing: &mut Standing<P>,
    tally: &mut Tally,
    command: &Command,
    begun: &mut bool,
    out: &mut S,
) -> Option<u8>
    requires weight { weight standing.old.circuit + cost command.now.verb ≤ 1_048_578 }
    requires room { HasRoom tally.old standing.old.settled }
    ensures goes { result ≡ None →
        GoesOnTallied P.style (IsStep command.now standing.old) standing.new S.taken S.calls out.old out.new begun.old begun.new tally.old tally.new }
    ensures ends { IfSome result (λ code. EndsAt P.style (IsStep command.now standing.old) S.taken S.calls out.old out.new begun.old code) }
    ensures weight { result ≡ None → weight standing.new.circuit ≤ weight standing.old.circuit + cost command.now.verb }
    ensures room { HasRoom tally.new standing.new.settled }
    ensures later { S.faults out.old ≤ S.faults out.new }
    ensures write { IfSome result (λ code. code ≡ 5 → Rose (S.faults out.old) (S.faults out.new)) }
    ensures usage { IfSome result (λ code. code ≡ 2 → ⊥) }
    ensures read { IfSome result (λ code. code ≡ 4 → ⊥) }
{
    match answer_to(alloc, &mut standing.circuit, command) {
        Ok(Answer::Done) => None,
        Ok(Answer::Refuses(fault)) => Some(print_fault(alloc, &fault, out)),
        Ok(Answer::Bases) => print_bases::<P, S>(alloc, &standing.circuit, begun, out),
        Ok(Answer::Solves) => solve_hours::<P, S>(
            alloc,
            &standing.circuit,
            &mut standing.at,
            &mut standing.solver,
            &mut standing.settled,
            tally,
            begun,
            out,
        ),
        Err(_) => Some(WANT_OF_MEMORY),
    }
}

/// The state between the commands is the circuit with the positions that its last Solve left; no further name is asked
/// for, and behind the last command nothing is left but to print what stands last.
impl<P: Page> Line for Standing<P> {
    ghost is_step = { λ command s step. IsStep command s step };

    ghost last_name = { λ s. None };

    ghost is_last = { λ s found h. h ≡ finishes [] };

    ghost tells = { closes P.style.closing };

    ghost style = { P.style };

    ghost weight = { λ s. weight s.circuit };

    fn law() {
        P::law();
    }

    fn take<S: Sink>(
        &mut self,
        alloc: Global,
        command: Command,
        begun: &mut bool,
        out: &mut S,
    ) -> Option<u8> {
        take_command(alloc, self, &mut Tally::none(), &command, begun, out)
    }

    fn finish<L: Library, S: Sink>(
        &mut self,
        alloc: Global,
        _lib: &mut L,
        begun: bool,
        out: &mut S,
    ) -> u8 {
        print_last::<P, S>(alloc, begun, out)
    }
}

/// Reads the script of this name, does its commands, prints their settles in the style of the page, and answers the
/// exit status.
pub fn solve<P: Page, L: Library, S: Sink>(
    alloc: Global,
    file: &str,
    lib: &mut L,
    out: &mut S,
) -> u8
    ensures run { (files : Files) → AgreesSince files (L.answers lib.old) (L.answers lib.new) →
        Runs L.answers S.taken S.calls lib.old lib.new out.old out.new
        (λ h. IsScriptHistory files (said_of files (chars file.now)) h) P.style (closes P.style.closing) result }
    ensures untold { IsUntold L.answers L.holds S.faults S.taken S.calls lib.old lib.new out.old out.new result }
{
    said_law();
    P::law();
    let Ok(mut session) = Session::open(alloc, file) else {
        return WANT_OF_MEMORY;
    };
    let mut standing: Standing<P> = Standing::new(alloc);
    run_script(alloc, &mut session, &mut standing, lib, out)
}
