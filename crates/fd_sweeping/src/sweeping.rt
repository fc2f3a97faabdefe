// The command line `ladder MASTER`.
ghost use Rattle.std.specs.Prelude.{◌≡◌, ◌+◌, ◌*◌, ◌-◌, ◌≤◌, ◌<◌, ◌^◌, IfOk, IfSome, None, false};
ghost use Rattle.std.specs.Str.{chars};
ghost use Rattle.fd_sweep.specs.fd_ladder.Radial.{first_offending};
ghost use Rattle.fd_solving.specs.dss_circuit.Circuit.{empty_circuit};
ghost use Rattle.fd_solving.specs.dss_ready.Ready.{HasPassed};
ghost use Rattle.fd_solving.specs.dss_script.Said.{said_of};
ghost use Rattle.fd_solving.specs.dss_script.Sessions.{cost};
ghost use Rattle.fd_solving.specs.fd_outside.Answers.{AgreesSince};
ghost use Rattle.fd_solving.specs.fd_outside.Causes.{Rose};
ghost use Rattle.fd_solving.specs.fd_outside.Files.{Files};
ghost use Rattle.fd_solving.specs.fd_outcome.Calls.{report};
ghost use Rattle.fd_solving.specs.fd_outcome.Parts.{EndsAt, GoesOn};
ghost use Rattle.fd_solving.specs.fd_outcome.Runs.{Runs};
ghost use Rattle.fd_solving.specs.fd_outcome.Untold.{IsUntold};
ghost use Rattle.fd_solving.specs.Answered.{IsOfCommand};
ghost use Rattle.fd_solving.specs.Scripts.{IsDoneThere, no_name};
ghost use Rattle.fd_solving.specs.Weights.{weight};
ghost use Rattle.fd_sweeping.specs.Sweeping.{IsByOrder, IsLadderHistory, IsSweepingStep, IsSweptSolve, at_rest, not_radial, sweeping};

use crate::page::LadderReport;
use fd_solving::{
    Answer, Circuit, Class, Command, Compute, ControlMode, ElementName, Fault, Library, Line, Mode,
    Options, Report, Session, Sink, Tally, Text, WANT_OF_MEMORY, answer_to, no_positions,
    print_bases, print_fault, print_last, run_script, said_law, solve_hours,
};
use fd_sweep::{LadderFault, radial};
use std::alloc::{AllocError, Global};
use std::marker::Model;

// The circuit so far, and how many settles there were, which are printed so.
#[derive(Drop)]
struct Sweeping {
    circuit: Circuit,
    settled: u32,
    // for the whole run, so that what it keeps serves each Solve
    solver: Compute,
}

impl Model for Sweeping {
    ghost use Rattle.std.specs.Prelude.{◌*◌, ◌≤◌};
    ghost use Rattle.fd_solving.specs.Steps.{StandingView};
    ghost use Rattle.fd_sweeping.specs.Sweeping.{sweeping};

    ghost Value = { StandingView };

    ghost view = { λ s. sweeping s.circuit s.settled };

    ghost invariant = { λ s. s.settled ≤ 8761 * s.circuit.solves };
}

impl Sweeping {
    fn new(alloc: Global) -> Sweeping
        ensures { result ≡ sweeping empty_circuit 0 }
    {
        Sweeping {
            circuit: Circuit::empty(alloc),
            settled: 0,
            solver: Compute::new(alloc),
        }
    }
}

// The fault of a circuit that isn't radial, of which the element of this number is the first that offends.
fn not_radial(alloc: Global, circuit: &Circuit, number: u32) -> Result<Fault, AllocError>
    ensures fault { IfOk result (λ f. f ≡ not_radial circuit.now.elements number) }
    ensures of_command { IfOk result IsOfCommand }
{
    match circuit.elements().as_slice().get_index(number as usize) {
        Some((name, _)) => Ok(Fault::NotRadial {
            element: name.clone()?,
        }),
        None => Ok(Fault::NotRadial {
            element: ElementName {
                class: Class::RegControl,
                name: Text::new(String::new(alloc)),
            },
        }),
    }
}

// The options of a snapshot without controls.
fn at_rest(options: &Options) -> Result<Options, AllocError>
    ensures { IfOk result (λ o. o ≡ at_rest options.now) }
{
    let mut options = options.copied()?;
    options.mode = Mode::Snapshot;
    options.controlmode = ControlMode::Off;
    Ok(options)
}

// Solves a radial circuit that passed the tests once, in snapshot and without controls, and prints its report with the
// record of its sweep. An answer ends the run. `begun` tells whether a text was written before.
fn solve_at_rest<S: Sink>(
    alloc: Global,
    circuit: &mut Circuit,
    solver: &mut Compute,
    settled: &mut u32,
    begun: &mut bool,
    out: &mut S,
) -> Option<u8>
    requires ready { HasPassed circuit.old }
    requires settles { settled.old + 8761 < 2 ^ 32 }
    ensures goes { result ≡ None → GoesOn report (IsSweptSolve circuit.old settled.old)
        (sweeping circuit.old settled.new) S.taken S.calls out.old out.new begun.old begun.new }
    ensures same { result ≡ None → circuit.new ≡ circuit.old }
    ensures solves { circuit.new.solves ≡ circuit.old.solves }
    ensures ends { IfSome result (EndsAt report (IsSweptSolve circuit.old settled.old) S.taken S.calls out.old
        out.new begun.old) }
    ensures settles { settled.new ≤ settled.old + 8761 }
    ensures later { S.faults out.old ≤ S.faults out.new }
    ensures write { IfSome result (λ code. code ≡ 5 → Rose (S.faults out.old) (S.faults out.new)) }
    ensures usage { IfSome result (λ code. code ≡ 2 → ⊥) }
    ensures read { IfSome result (λ code. code ≡ 4 → ⊥) }
{
    let Ok(kept) = circuit.options().copied() else {
        return Some(WANT_OF_MEMORY);
    };
    let Ok(resting) = at_rest(&kept) else {
        return Some(WANT_OF_MEMORY);
    };
    circuit.set_options(resting);
    let mut at = no_positions(alloc);
    let mut tally = Tally::none();
    let ended = solve_hours::<LadderReport, S>(
        alloc, circuit, &mut at, solver, settled, &mut tally, begun, out,
    );
    circuit.set_options(kept);
    ended
}

// Does a Solve of a circuit that passed the tests: it is solved once where it is radial. An answer ends the run.
fn solve_radial<S: Sink>(
    alloc: Global,
    circuit: &mut Circuit,
    solver: &mut Compute,
    settled: &mut u32,
    begun: &mut bool,
    out: &mut S,
) -> Option<u8>
    requires ready { HasPassed circuit.old }
    requires settles { settled.old + 8761 < 2 ^ 32 }
    ensures goes { result ≡ None
        → GoesOn report (IsByOrder circuit.old settled.old (first_offending circuit.old.elements))
        (sweeping circuit.old settled.new) S.taken S.calls out.old out.new begun.old begun.new }
    ensures same { result ≡ None → circuit.new ≡ circuit.old }
    ensures solves { circuit.new.solves ≡ circuit.old.solves }
    ensures ends { IfSome result
        (EndsAt report (IsByOrder circuit.old settled.old (first_offending circuit.old.elements)) S.taken S.calls
        out.old out.new begun.old) }
    ensures settles { settled.new ≤ settled.old + 8761 }
    ensures later { S.faults out.old ≤ S.faults out.new }
    ensures write { IfSome result (λ code. code ≡ 5 → Rose (S.faults out.old) (S.faults out.new)) }
    ensures usage { IfSome result (λ code. code ≡ 2 → ⊥) }
    ensures read { IfSome result (λ code. code ≡ 4 → ⊥) }
{
    match radial(alloc, circuit) {
        Ok(_) => solve_at_rest(alloc, circuit, solver, settled, begun, out),
        Err(LadderFault::NotRadial(number)) => match not_radial(alloc, circuit, number) {
            Ok(fault) => Some(print_fault(alloc, &fault, out)),
            Err(_) => Some(WANT_OF_MEMORY),
        },
        Err(LadderFault::NoMemory) => Some(WANT_OF_MEMORY),
    }
}

// Does a command, and hands over what it gives. An answer ends the run. `begun` tells whether a text was written before.
fn take_command<S: Sink>(
    alloc: Global,
    sweeping: &mut Sweeping,
    command: &Command,
    begun: &mut bool,
    out: &mut S,
) -> Option<u8>
    requires weight { weight sweeping.old.circuit + cost command.now.verb ≤ 1_048_578 }
    ensures goes { result ≡ None → GoesOn report (IsSweepingStep command.now sweeping.old) sweeping.new S.taken S.calls
        out.old out.new begun.old begun.new }
    ensures ends { IfSome result (λ code. EndsAt report (IsSweepingStep command.now sweeping.old) S.taken S.calls
        out.old out.new begun.old code) }
    ensures room { result ≡ None → weight sweeping.new.circuit ≤ weight sweeping.old.circuit + cost command.now.verb }
    ensures later { S.faults out.old ≤ S.faults out.new }
    ensures write { IfSome result (λ code. code ≡ 5 → Rose (S.faults out.old) (S.faults out.new)) }
    ensures usage { IfSome result (λ code. code ≡ 2 → ⊥) }
    ensures read { IfSome result (λ code. code ≡ 4 → ⊥) }
{
    match answer_to(alloc, &mut sweeping.circuit, command) {
        Ok(Answer::Done) => None,
        Ok(Answer::Refuses(fault)) => Some(print_fault(alloc, &fault, out)),
        Ok(Answer::Bases) => print_bases::<Report, S>(alloc, &sweeping.circuit, begun, out),
        Ok(Answer::Solves) => {
            solve_radial(
                alloc,
                &mut sweeping.circuit,
                &mut sweeping.solver,
                &mut sweeping.settled,
                begun,
                out,
            )
        }
        Err(_) => Some(WANT_OF_MEMORY),
    }
}

/// The state between the commands is the circuit with the number of settles so far; no further name is asked for, and
/// behind the last command nothing is left to do.
impl Line for Sweeping {
    ghost is_step = { λ command s step. IsSweepingStep command s step };

    ghost last_name = { λ s. no_name s };

    ghost is_last = { λ s found h. IsDoneThere s found h };

    ghost tells = { false };

    ghost style = { report };

    ghost weight = { λ s. weight s.circuit };

    fn law() {}

    fn take<S: Sink>(
        &mut self,
        alloc: Global,
        command: Command,
        begun: &mut bool,
        out: &mut S,
    ) -> Option<u8> {
        take_command(alloc, self, &command, begun, out)
    }

    fn finish<L: Library, S: Sink>(
        &mut self,
        alloc: Global,
        _lib: &mut L,
        begun: bool,
        out: &mut S,
    ) -> u8 {
        print_last::<Report, S>(alloc, begun, out)
    }
}

/// Reads the script of this name, does its commands, prints its Solves with their sweeps, and answers the exit status.
pub fn ladder<L: Library, S: Sink>(alloc: Global, master: &str, lib: &mut L, out: &mut S) -> u8
    ensures run { (files : Files) → AgreesSince files (L.answers lib.old) (L.answers lib.new) →
        Runs L.answers S.taken S.calls lib.old lib.new out.old out.new
        (λ h. IsLadderHistory files (said_of files (chars master.now)) h) report false result }
    ensures untold { IsUntold L.answers L.holds S.faults S.taken S.calls lib.old lib.new out.old out.new result }
{
    said_law();
    let Ok(mut session) = Session::open(alloc, master) else {
        return WANT_OF_MEMORY;
    };
    let mut sweeping = Sweeping::new(alloc);
    run_script(alloc, &mut session, &mut sweeping, lib, out)
}
