// The command line `check SCRIPT CERTIFICATE`.
ghost use Rattle.std.specs.Prelude.{◌≡◌, ◌+◌, ◌≤◌, [], IfOk, None, true};
ghost use Rattle.std.specs.Str.{chars};
ghost use Rattle.fd_check.specs.dss_circuit.Circuit.{empty_circuit};
ghost use Rattle.fd_check.specs.fd_outside.Answers.{AgreesSince};
ghost use Rattle.fd_check.specs.fd_outside.Causes.{Rose};
ghost use Rattle.fd_check.specs.fd_outside.Files.{Files};
ghost use Rattle.fd_solving.specs.fd_report.declared.faults.Fault.TheVariants.{Read};
ghost use Rattle.fd_solving.specs.fd_outcome.Parts.{Printed, fault_doing};
ghost use Rattle.fd_solving.specs.dss_script.Said.{said_of};
ghost use Rattle.fd_solving.specs.dss_script.Sessions.{cost};
ghost use Rattle.fd_solving.specs.fd_outcome.Calls.{report};
ghost use Rattle.fd_solving.specs.fd_outcome.Runs.{Runs};
ghost use Rattle.fd_solving.specs.fd_outcome.Untold.{IsUntold};
ghost use Rattle.fd_solving.specs.Weights.{weight};
ghost use Rattle.fd_checking.specs.Checks.{IsCheckHistory, IsCheckStep, IsJudged, certificate_name};
ghost use Rattle.fd_checking.specs.Gathered.{IsFollowed, IsGathered, IsKeptWith};

use crate::gathered::Gathered;
use crate::judged::answer_found;
use fd_check::{Circuit, Command, LibFault, Library, Sink, Text};
use fd_solving::{
    Answer, Fault, Line, Session, WANT_OF_MEMORY, answer_to, print_fault, run_script, said_law,
};
use std::alloc::{AllocError, Global};

// Keeps a command that was accepted.
fn keep(commands: &mut Vec<Command>, command: Command) -> Result<Option<Fault>, AllocError>
    ensures { IfOk result (λ f. IsKeptWith command commands.old.items commands.new.items f) }
{
    commands.push(command)?;
    Ok(None)
}

// Does a command and keeps it, or gives the fault in which the run ends.
fn follow(
    alloc: Global,
    circuit: &mut Circuit,
    commands: &mut Vec<Command>,
    command: Command,
) -> Result<Option<Fault>, AllocError>
    requires gathered { IsGathered circuit.old commands.old.items }
    requires room { weight circuit.old + cost command.verb ≤ 1_048_578 }
    ensures { IfOk result (λ f. IsFollowed command circuit.old circuit.new commands.old.items commands.new.items f) }
{
    match answer_to(alloc, circuit, &command)? {
        Answer::Done => keep(commands, command),
        Answer::Bases => keep(commands, command),
        Answer::Solves => keep(commands, command),
        Answer::Refuses(fault) => Ok(Some(fault)),
    }
}

// Forgets the script, where the run ends in it.
fn forget(alloc: Global, circuit: &mut Circuit, commands: &mut Vec<Command>)
    ensures circuit { circuit.new ≡ empty_circuit }
    ensures commands { commands.new.items ≡ [] }
{
    *circuit = Circuit::empty(alloc);
    *commands = Vec::new(alloc);
}

// Prints the fault of a file that couldn't be read, and answers the exit status.
fn print_unread<S: Sink>(alloc: Global, name: &Text, out: &mut S) -> u8
    ensures prints { Printed S.taken S.calls out.old out.new true (fault_doing (Read name.now)) result }
    ensures later { S.faults out.old ≤ S.faults out.new }
    ensures write { result ≡ 5 → Rose (S.faults out.old) (S.faults out.new) }
{
    match name.clone() {
        Ok(name) => print_fault(alloc, &Fault::Read { name }, out),
        Err(_) => WANT_OF_MEMORY,
    }
}

/// Commands are gathered, and nothing is solved or printed; behind the last one the certificate is asked for, and judged.
impl Line for Gathered {
    ghost is_step = { λ command g step. IsCheckStep command g step };

    ghost last_name = { λ g. certificate_name g };

    ghost is_last = { λ g found h. IsJudged g found h };

    ghost tells = { true };

    ghost style = { report };

    ghost weight = { λ g. weight g.circuit };

    fn law() {}

    fn take<S: Sink>(
        &mut self,
        alloc: Global,
        command: Command,
        _begun: &mut bool,
        out: &mut S,
    ) -> Option<u8> {
        match follow(alloc, &mut self.circuit, &mut self.commands, command) {
            Ok(None) => None,
            Ok(Some(fault)) => {
                forget(alloc, &mut self.circuit, &mut self.commands);
                Some(print_fault(alloc, &fault, out))
            }
            Err(_) => {
                forget(alloc, &mut self.circuit, &mut self.commands);
                Some(WANT_OF_MEMORY)
            }
        }
    }

    fn finish<L: Library, S: Sink>(
        &mut self,
        alloc: Global,
        lib: &mut L,
        _begun: bool,
        out: &mut S,
    ) -> u8 {
        let found = match lib.read(alloc, self.certificate.as_str()) {
            Ok(found) => found,
            Err(LibFault::Failed) => return print_unread(alloc, &self.certificate, out),
            Err(LibFault::NoMemory) => return WANT_OF_MEMORY,
        };
        answer_found(alloc, self.commands.as_slice(), &self.circuit, found, out)
    }
}

/// Reads the script of this name, gathers its commands, judges the certificate of this name on the networks of its
/// Solves, prints the answer, and answers the exit status.
pub fn check<L: Library, S: Sink>(
    alloc: Global,
    script: &str,
    certificate: &str,
    lib: &mut L,
    out: &mut S,
) -> u8
    ensures run { (files : Files) → AgreesSince files (L.answers lib.old) (L.answers lib.new) →
        Runs L.answers S.taken S.calls lib.old lib.new out.old out.new
        (λ h. IsCheckHistory files (said_of files (chars script.now)) (chars certificate.now) h) report true result }
    ensures untold { IsUntold L.answers L.holds S.faults S.taken S.calls lib.old lib.new out.old out.new result }
{
    said_law();
    let Ok(mut session) = Session::open(alloc, script) else {
        return WANT_OF_MEMORY;
    };
    let Ok(mut gathered) = Gathered::new(alloc, certificate) else {
        return WANT_OF_MEMORY;
    };
    run_script(alloc, &mut session, &mut gathered, lib, out)
}
