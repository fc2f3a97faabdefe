// What one command comes to.
ghost use Rattle.std.specs.Prelude.{◌+◌, ◌≤◌, ◌<◌, ◌-◌, ◌^◌, IfOk, Ok, length};
ghost use Rattle.dss_commands.specs.dss_circuit.Limits.{most_elements};
ghost use Rattle.fd_solving.specs.Answered.{IsAnswered, solve_count, solves_of};
ghost use Rattle.fd_solving.specs.Commands.{left_of, solve_left, tried};

use crate::answer::{Answer, refused};
use dss_commands::{Circuit, Command, ModelError, Verb, apply};
use fd_daily::{ReadyFault, ready};
use fd_pages::Cause;
use std::alloc::{AllocError, Global};

// A Solve whose options the circuit has taken, by the tests that come first.
fn test(alloc: Global, circuit: &Circuit) -> Result<Answer, AllocError>
    ensures { IfOk result (IsAnswered (solve_left circuit.now) circuit.now) }
{
    match ready(alloc, circuit) {
        Ok(()) => Ok(Answer::Solves),
        Err(ReadyFault::Blame(blame)) => {
            let fault = refused(&blame.place, Cause::Model(blame.cause))?;
            Ok(Answer::Refuses(fault))
        }
        Err(ReadyFault::NoMemory) => Err(AllocError),
    }
}

// What is left to do of a command that the circuit has accepted.
fn after_apply(alloc: Global, circuit: &Circuit, command: &Command) -> Result<Answer, AllocError>
    ensures left { IfOk result (IsAnswered (left_of command.now.place command.now.verb (Ok circuit.now)) circuit.now) }
    ensures count { IfOk result (λ a. solves_of a ≤ solve_count command.now.verb) }
{
    match &command.verb {
        Verb::Bases => Ok(Answer::Bases),
        Verb::Solve { .. } => test(alloc, circuit),
        Verb::New { .. } | Verb::Edit { .. } | Verb::Set { .. } | Verb::Clear => Ok(Answer::Done),
    }
}

/// Does a command, and says what it comes to. The circuit has counted each Solve that passed the tests. An error is
/// want of memory.
pub fn answer_to(
    alloc: Global,
    circuit: &mut Circuit,
    command: &Command,
) -> Result<Answer, AllocError>
    requires solves { circuit.old.solves < 2 ^ 32 - 1 }
    requires elements { length circuit.old.elements < most_elements }
    ensures left { IfOk result (IsAnswered (tried command.now circuit.old) circuit.new) }
    ensures count { IfOk result (λ a. circuit.old.solves + solves_of a ≤ circuit.new.solves) }
    ensures kept { circuit.old.solves ≤ circuit.new.solves }
{
    match apply(alloc, circuit, command) {
        Ok(()) => after_apply(alloc, circuit, command),
        Err(ModelError::Fault(cause)) => {
            let fault = refused(&command.place, Cause::Model(cause))?;
            Ok(Answer::Refuses(fault))
        }
        Err(ModelError::NoMemory) => Err(AllocError),
    }
}
