// The command line `upgrade CERTIFICATE`.
ghost use Rattle.std.specs.Prelude.{◌≡◌, ◌≤◌, IfOk, Some, true};
ghost use Rattle.std.specs.Str.{chars};
ghost use Rattle.fd_solving.specs.fd_outside.Answers.{AgreesSince};
ghost use Rattle.fd_solving.specs.fd_outside.Causes.{Rose};
ghost use Rattle.fd_solving.specs.fd_outside.Files.{Files};
ghost use Rattle.fd_solving.specs.fd_report.declared.faults.Fault.TheVariants.{Read};
ghost use Rattle.fd_solving.specs.fd_outcome.Calls.{report};
ghost use Rattle.fd_solving.specs.fd_outcome.Parts.{Printed, fault_doing};
ghost use Rattle.fd_solving.specs.fd_outcome.Runs.{Runs};
ghost use Rattle.fd_solving.specs.fd_outcome.Untold.{IsUntold};
ghost use Rattle.fd_solving.specs.dss_script.Sessions.{found_bytes};
ghost use Rattle.fd_upgrade.specs.Answering.{IsAnswered};
ghost use Rattle.fd_upgrade.specs.Upgrading.{IsUpgradeHistory};

use fd_solving::{
    CertFileFault, Fault, Found, LibFault, Library, Rule, Sink, Text, WANT_OF_MEMORY, print_end,
    print_fault,
};
use std::alloc::{AllocError, Global};

fn name_of(alloc: Global, certificate: &str) -> Result<Text, AllocError>
    ensures { IfOk result (λ name. name ≡ chars certificate.now) }
{
    Ok(Text::new(String::from_str(alloc, certificate)?))
}

// Prints that a file of this name could not be read, and answers the exit status.
fn print_unread<S: Sink>(alloc: Global, name: &Text, out: &mut S) -> u8
    ensures prints { Printed S.taken S.calls out.old out.new true (fault_doing (Read name.now)) result }
    ensures later { S.faults out.old ≤ S.faults out.new }
    ensures write { result ≡ 5 → Rose (S.faults out.old) (S.faults out.new) }
{
    match name.clone() {
        Ok(name) => print_fault(alloc, &Fault::Read { name }, out),
        Err(_) => WANT_OF_MEMORY,
    }
}

// Prints the lines of these bytes in version 2, or why they are refused, and answers the exit status.
fn print_upgrade<S: Sink>(alloc: Global, bytes: &[u8], out: &mut S) -> u8
    ensures answers { IsAnswered S.taken S.calls out.old out.new (Some bytes.now) result }
    ensures later { S.faults out.old ≤ S.faults out.new }
    ensures write { result ≡ 5 → Rose (S.faults out.old) (S.faults out.new) }
{
    match fd_solving::upgrade(alloc, bytes) {
        Ok(lines) => print_end(alloc, lines.as_slice(), out),
        Err(CertFileFault::Refused { line, rule }) => {
            print_fault(alloc, &Fault::Certificate { line, rule }, out)
        }
        Err(CertFileFault::NoMemory) => WANT_OF_MEMORY,
    }
}

// Prints what comes of what was found, and answers the exit status.
fn answer_found<S: Sink>(alloc: Global, found: Found, out: &mut S) -> u8
    ensures answers { IsAnswered S.taken S.calls out.old out.new (found_bytes found) result }
    ensures later { S.faults out.old ≤ S.faults out.new }
    ensures write { result ≡ 5 → Rose (S.faults out.old) (S.faults out.new) }
{
    match found {
        Found::Bytes(bytes) => print_upgrade(alloc, bytes.as_slice(), out),
        Found::Absent => print_fault(
            alloc,
            &Fault::Certificate {
                line: 0,
                rule: Rule::Absent,
            },
            out,
        ),
    }
}

/// Asks for the certificate of this name and prints its lines in version 2, or the record of why it is refused, and
/// answers the exit status: 0; 13 where no such file is held or its bytes aren't in the grammar; 4 at a failed read, 5
/// at a failed write, 1 where memory runs out.
pub fn upgrade<L: Library, S: Sink>(
    alloc: Global,
    certificate: &str,
    lib: &mut L,
    out: &mut S,
) -> u8
    ensures run { (files : Files) → AgreesSince files (L.answers lib.old) (L.answers lib.new) →
        Runs L.answers S.taken S.calls lib.old lib.new out.old out.new
        (λ h. IsUpgradeHistory files (chars certificate.now) h) report true result }
    ensures untold { IsUntold L.answers L.holds S.faults S.taken S.calls lib.old lib.new out.old out.new result }
{
    let Ok(name) = name_of(alloc, certificate) else {
        return WANT_OF_MEMORY;
    };
    let found = match lib.read(alloc, name.as_str()) {
        Ok(found) => found,
        Err(LibFault::Failed) => return print_unread(alloc, &name, out),
        Err(LibFault::NoMemory) => return WANT_OF_MEMORY,
    };
    answer_found(alloc, found, out)
}
