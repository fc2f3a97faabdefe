// A certificate over the Solves of a script.
ghost use Rattle.std.specs.Prelude.{◌≡◌, ◌+◌, ◌*◌, [], ◌∷◌, ◌<◌, ◌≤◌, ◌^◌, All, IfErr, IfOk, Ok, OnOk, Some, length};
ghost use Rattle.dss_commands.specs.Commands.{applied};
ghost use Rattle.dss_commands.specs.dss_circuit.Circuit.{empty_circuit};
ghost use Rattle.fd_certfile.specs.Verdict.{IsAnswer, accepted};
ghost use Rattle.fd_daily.specs.Underway.{no_positions};
ghost use Rattle.fd_daily.specs.dss_ready.Ready.{HasPassed};
ghost use Rattle.fd_daily.specs.fd_xfmr.Leakage.{AreTaps};
ghost use Rattle.fd_check.specs.Checking.{after, due, open_solves};
ghost use Rattle.fd_check.specs.Comes.{Comes, LeadsForAll, Tells, TellsForAll};
ghost use Rattle.fd_check.specs.Commands.{AreAccepted, HasRoom, IsAcceptedBy, behind_all, behind_one, is_solve, most_solves, solve_in, solves_in, solves_last};
ghost use Rattle.fd_check.specs.Hours.{script_open, solves_open};

use crate::ending::check_end;
use crate::fault::CheckFault;
use crate::hours::check_solve;
use dss_commands::{Circuit, Command, Verb, apply};
use fd_certfile::CertReader;
use fd_daily::{BankStates, Positions, Taps};
use std::alloc::Global;

/// Checks a certificate over the Solves of a script, whose commands these are in order; and gives the number of its blocks
/// where it is accepted. Each command was accepted by the circuit that the commands before it made from none, and the
/// circuit of each Solve passed the tests. The circuit that all of them made is given too: where the last command is the
/// only Solve, it is that Solve's; else they are done again one by one, so there is one network at a time.
///
/// # Errors
/// `Refused` at the first rule that the certificate breaks, with the line that it names; `Range` where the network of the
/// block that is due is out of range, and the blocks before it break no rule; `NoMemory`.
pub fn check_script(
    alloc: Global,
    commands: &[Command],
    circuit: &Circuit,
    bytes: &[u8],
) -> Result<u64, CheckFault>
    requires accepted { AreAccepted empty_circuit commands.now }
    requires made { circuit.now ≡ behind_all empty_circuit commands.now }
    requires few { length (solves_in empty_circuit commands.now) ≤ most_solves }
    ensures accepted { IfOk result (λ count. IsAnswer due after (Some bytes.now) (script_open commands.now) (accepted count)) }
    ensures refused { IfErr result (λ fault. Tells fault (IsAnswer due after (Some bytes.now) (script_open commands.now))) }
{
    match CertReader::open(alloc, bytes) {
        Ok(reader) => {
            let mut reader = reader;
            check_solves(alloc, commands, circuit, &mut reader)
        }
        Err(fault) => Err(CheckFault::from(fault)),
    }
}

// Checks what is left of a certificate over the Solves of these commands, which made this circuit.
fn check_solves(
    alloc: Global,
    commands: &[Command],
    circuit: &Circuit,
    reader: &mut CertReader<'_>,
) -> Result<u64, CheckFault>
    requires accepted { AreAccepted empty_circuit commands.now }
    requires made { circuit.now ≡ behind_all empty_circuit commands.now }
    requires few { length (solves_in empty_circuit commands.now) ≤ most_solves }
    ensures accepted { IfOk result (λ count. Comes reader.old (script_open commands.now) (accepted count)) }
    ensures refused { IfErr result (λ fault. Tells fault (Comes reader.old (script_open commands.now))) }
{
    if solves_last(commands) {
        check_circuit(alloc, circuit, reader)
    } else {
        check_commands(alloc, commands, reader)
    }
}

// Whether a command is a Solve.
fn is_solve(command: &Command) -> bool
    ensures { result ≡ is_solve command.now.verb }
{
    match command.verb {
        Verb::Solve { .. } => true,
        Verb::New { .. } | Verb::Edit { .. } | Verb::Set { .. } | Verb::Clear | Verb::Bases =>
            false,
    }
}

// Whether the last of these commands is a Solve, and the only one.
fn solves_last(commands: &[Command]) -> bool
    ensures { result ≡ solves_last commands.now }
{
    let mut left = commands.len();
    for command in commands {
        left -= 1;
        if is_solve(command) {
            return left == 0;
        }
    }
    false
}

// Checks what is left of a certificate over one Solve of this circuit.
fn check_circuit(
    alloc: Global,
    circuit: &Circuit,
    reader: &mut CertReader<'_>,
) -> Result<u64, CheckFault>
    requires { HasPassed circuit.now }
    ensures accepted { IfOk result (λ count.
        Comes reader.old (open_solves (circuit.now ∷ []) no_positions 0) (accepted count)) }
    ensures refused { IfErr result (λ fault.
        Tells fault (Comes reader.old (open_solves (circuit.now ∷ []) no_positions 0))) }
{
    let mut at = Positions {
        taps: Taps::new(Vec::new(alloc)),
        closed: BankStates::new(Vec::new(alloc)),
    };
    let mut settled = 0;
    match check_solve(alloc, circuit, &mut at, &mut settled, reader) {
        Ok(()) => check_end(reader),
        Err(fault) => Err(fault),
    }
}

// Checks what is left of a certificate over these commands.
fn check_commands(
    alloc: Global,
    commands: &[Command],
    reader: &mut CertReader<'_>,
) -> Result<u64, CheckFault>
    requires accepted { AreAccepted empty_circuit commands.now }
    requires few { length (solves_in empty_circuit commands.now) ≤ most_solves }
    ensures accepted { IfOk result (λ count. Comes reader.old (script_open commands.now) (accepted count)) }
    ensures refused { IfErr result (λ fault. Tells fault (Comes reader.old (script_open commands.now))) }
{
    let mut circuit = Circuit::empty(alloc);
    let mut at = Positions {
        taps: Taps::new(Vec::new(alloc)),
        closed: BankStates::new(Vec::new(alloc)),
    };
    let mut settled = 0;
    for command in commands {
        if let Err(fault) = check_command(
            alloc,
            command,
            &mut circuit,
            &mut at,
            &mut settled,
            reader,
        ) {
            return Err(fault);
        }
    }
    check_end(reader)
}

// Does a command, and checks the blocks of a Solve.
fn check_command(
    alloc: Global,
    command: &Command,
    circuit: &mut Circuit,
    at: &mut Positions,
    settled: &mut u32,
    reader: &mut CertReader<'_>,
) -> Result<(), CheckFault>
    requires room { HasRoom circuit.old }
    requires accepted { IsAcceptedBy command.now.verb (applied command.now circuit.old) }
    requires taps { All AreTaps at.old.taps }
    requires settles { settled.old + 8761 < 2 ^ 32 }
    ensures circuit { OnOk result (circuit.new ≡ behind_one command.now circuit.old) }
    ensures goes { OnOk result (LeadsForAll
        reader.old (solves_open (solve_in command.now circuit.old) at.old settled.old)
        reader.new (solves_open [] at.new settled.new)) }
    ensures refused { IfErr result (TellsForAll reader.old (solves_open (solve_in command.now circuit.old) at.old settled.old)) }
    ensures taps { All AreTaps at.new.taps }
    ensures settles { settled.new ≤ settled.old + 8761 * length (solve_in command.now circuit.old) }
{
    match apply(alloc, circuit, command) {
        Ok(()) => match command.verb {
            Verb::Solve { .. } => check_solve(alloc, circuit, at, settled, reader),
            Verb::New { .. } | Verb::Edit { .. } | Verb::Set { .. } | Verb::Clear | Verb::Bases => {
                Ok(())
            }
        },
        Err(_) => Err(CheckFault::NoMemory),
    }
}
