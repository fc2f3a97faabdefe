// A command line at work: what the loop over a script's commands asks of it.
ghost use Rattle.std.specs.Prelude.{◌≡◌, ◌+◌, ◌≤◌, Bool, List, ℕ, Option, IfSome, None};
ghost use Rattle.fd_pages.specs.fd_outside.Answers.{AgreesSince};
ghost use Rattle.fd_pages.specs.fd_outside.Causes.{Rose};
ghost use Rattle.fd_pages.specs.fd_outside.Files.{Files, held};
ghost use Rattle.dss_commands.specs.dss_model.Names.{bytes};
ghost use Rattle.dss_commands.specs.dss_model.declared.command.Command.{Command};
ghost use Rattle.fd_pages.specs.dss_script.Sessions.{cost};
ghost use Rattle.fd_pages.specs.fd_outcome.Behind.{AsksNames, TellsEnd};
ghost use Rattle.fd_pages.specs.fd_outcome.Calls.{Style};
ghost use Rattle.fd_pages.specs.fd_outcome.Events.{History};
ghost use Rattle.fd_pages.specs.fd_outcome.History.{IsLast};
ghost use Rattle.fd_pages.specs.fd_outcome.Parts.{EndsAt, Finishes, GoesOn};
ghost use Rattle.fd_pages.specs.fd_outcome.Untold.{IsUntold};
ghost use Rattle.fd_pages.specs.fd_outcome.Work.{ExactlyOne, Step};

use dss_commands::Command;
use fd_pages::{Library, Sink};
use std::alloc::Global;

/// A command line at work on a script. Contracts see the state between two commands.
pub trait Line {
    /// What a command may come to.
    ghost is_step: { Command → Self → Step Self → Type 0 };

    /// The name that is asked for behind the last command, where one is.
    ghost last_name: { Self → Option (List ℕ) };

    /// What is done then, by what is held under that name.
    ghost is_last: { Self → Option (List ℕ) → History → Type 0 };

    /// Whether a text tells an end without a fault.
    ghost tells: { Bool };

    /// How it prints.
    ghost style: { Style };

    /// The least room in a script that the commands so far have taken.
    ghost weight: { Self → ℕ };

    /// A law: a command comes to exactly one thing, and so does the end; the names of its events are asked of the
    /// library; and where a text is to tell an end without a fault, one does. Does nothing.
    fn law()
        ensures one_step { (command : Command) (state : Self) → ExactlyOne (is_step command state) }
        ensures one_last { (state : Self) (found : Option (List ℕ)) → ExactlyOne (is_last state found) }
        ensures fits { AsksNames style }
        ensures told { TellsEnd tells style is_last };

    /// Does a command, and hands over what it gives. An answer ends the run. `begun` tells whether a text was written
    /// before.
    fn take<S: Sink>(
        &mut self,
        alloc: Global,
        command: Command,
        begun: &mut bool,
        out: &mut S,
    ) -> Option<u8>
        requires { weight self.old + cost command.verb ≤ 1_048_578 }
        ensures goes { result ≡ None →
            GoesOn style (is_step command self.old) self.new S.taken S.calls out.old out.new begun.old begun.new }
        ensures ends { IfSome result (λ code. EndsAt style (is_step command self.old) S.taken S.calls out.old out.new begun.old code) }
        ensures room { result ≡ None → weight self.new ≤ weight self.old + cost command.verb }
        ensures later { S.faults out.old ≤ S.faults out.new }
        ensures write { IfSome result (λ code. code ≡ 5 → Rose (S.faults out.old) (S.faults out.new)) }
        ensures usage { IfSome result (λ code. code ≡ 2 → ⊥) }
        ensures read { IfSome result (λ code. code ≡ 4 → ⊥) };

    /// Does what is left to do behind the last command, and answers the exit status.
    fn finish<L: Library, S: Sink>(
        &mut self,
        alloc: Global,
        lib: &mut L,
        begun: bool,
        out: &mut S,
    ) -> u8
        ensures told { (files : Files) → AgreesSince files (L.answers lib.old) (L.answers lib.new)
            → Finishes style tells
            (λ h. IsLast is_step last_name is_last (λ name. held files (bytes name)) (last_name self.old) self.old h)
            L.answers S.taken S.calls lib.old lib.new out.old out.new begun result }
        ensures untold { IsUntold L.answers L.holds S.faults S.taken S.calls lib.old lib.new out.old out.new result };
}
