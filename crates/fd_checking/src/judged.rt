// What the certificate of `check` comes to.
ghost use Rattle.std.specs.Prelude.{◌≡◌, ◌≤◌, IfOk, List, length, true, ℕ};
ghost use Rattle.fd_check.specs.dss_circuit.Circuit.{CircuitView, empty_circuit};
ghost use Rattle.fd_solving.specs.dss_script.Sessions.{found_bytes};
ghost use Rattle.fd_check.specs.Commands.{AreAccepted, behind_all, most_solves};
ghost use Rattle.fd_solving.specs.fd_outcome.Calls.{doing, report};
ghost use Rattle.fd_solving.specs.fd_outcome.Parts.{Printed};
ghost use Rattle.fd_check.specs.fd_outside.Causes.{Rose};
ghost use Rattle.fd_checking.specs.Checks.{IsJudged, gathered};
ghost use Rattle.fd_checking.specs.Gathered.{solved_by};
ghost use Rattle.fd_checking.specs.Judged.{IsAnsweredSo, IsJudgedBy, IsOfCheck, history_in};

use fd_check::{CheckFault, Circuit, Command, Found, Rule, Sink, check_script};
use fd_solving::{Cause, Fault, WANT_OF_MEMORY, accepted_record, print_end, print_fault};
use std::alloc::{AllocError, Global};

// A certificate is accepted, with so many blocks, or the run ends with a fault.
#[derive(Drop)]
pub(crate) enum Judged {
    Accepted(u64),
    Refused(Fault),
}

// What the check of a certificate answered.
fn judged_by(answer: Result<u64, CheckFault>) -> Result<Judged, AllocError>
    ensures { IfOk result (λ j. IsJudgedBy answer j) }
{
    match answer {
        Ok(blocks) => Ok(Judged::Accepted(blocks)),
        Err(CheckFault::Refused { line, rule }) => {
            Ok(Judged::Refused(Fault::Certificate { line, rule }))
        }
        Err(CheckFault::Range(blame)) => Ok(Judged::Refused(Fault::Script {
            place: blame.place,
            cause: Cause::Model(blame.cause),
        })),
        Err(CheckFault::NoMemory) => Err(AllocError),
    }
}

// Judges what was found under the name of the certificate on the networks of the Solves of these commands, which made
// this circuit.
fn judge(
    alloc: Global,
    commands: &[Command],
    circuit: &Circuit,
    found: Found,
) -> Result<Judged, AllocError>
    requires accepted { AreAccepted empty_circuit commands.now }
    requires made { circuit.now ≡ behind_all empty_circuit commands.now }
    requires few { length (solved_by commands.now) ≤ most_solves }
    ensures judged { (c : CircuitView) (name : List ℕ) →
        IfOk result (λ j. IsJudged (gathered c (solved_by commands.now) name) (found_bytes found) (history_in j)) }
    ensures command { IfOk result IsOfCheck }
{
    match found {
        Found::Bytes(bytes) => {
            judged_by(check_script(alloc, commands, circuit, bytes.as_slice()))
        }
        Found::Absent => judged_by(Err(CheckFault::Refused {
            line: 0,
            rule: Rule::Absent,
        })),
    }
}

// Prints the record of an accepted certificate or of the fault, and answers the exit status.
fn print_judged<S: Sink>(alloc: Global, judged: &Judged, out: &mut S) -> u8
    ensures prints { Printed S.taken S.calls out.old out.new true (doing report (history_in judged.now)) result }
    ensures later { S.faults out.old ≤ S.faults out.new }
    ensures write { result ≡ 5 → Rose (S.faults out.old) (S.faults out.new) }
{
    match judged {
        Judged::Accepted(blocks) => match accepted_record(alloc, *blocks) {
            Ok(text) => print_end(alloc, &[text], out),
            Err(_) => WANT_OF_MEMORY,
        },
        Judged::Refused(fault) => print_fault(alloc, fault, out),
    }
}

/// Judges what was found under the name of the certificate on the networks of the Solves of these commands, which made
/// this circuit, prints the answer, and answers the exit status.
pub(crate) fn answer_found<S: Sink>(
    alloc: Global,
    commands: &[Command],
    circuit: &Circuit,
    found: Found,
    out: &mut S,
) -> u8
    requires accepted { AreAccepted empty_circuit commands.now }
    requires made { circuit.now ≡ behind_all empty_circuit commands.now }
    requires few { length (solved_by commands.now) ≤ most_solves }
    ensures answers { (c : CircuitView) (name : List ℕ) →
        IsAnsweredSo S.taken S.calls out.old out.new (gathered c (solved_by commands.now) name) (found_bytes found) result }
    ensures later { S.faults out.old ≤ S.faults out.new }
    ensures write { result ≡ 5 → Rose (S.faults out.old) (S.faults out.new) }
{
    match judge(alloc, commands, circuit, found) {
        Ok(judged) => print_judged(alloc, &judged, out),
        Err(_) => WANT_OF_MEMORY,
    }
}
