// The command line `fault MASTER BUS KIND`.
ghost use Rattle.std.specs.Prelude.{◌≡◌, ◌+◌, ◌-◌, ◌≤◌, ◌<◌, ◌^◌, IfOk, OnErr, None, false, length};
ghost use Rattle.std.specs.Str.{chars};
ghost use Rattle.fd_fault.specs.dss_model.Names.{lower};
ghost use Rattle.fd_fault.specs.dss_circuit.Circuit.{empty_circuit};
ghost use Rattle.fd_fault.specs.dss_circuit.Limits.{most_elements};
ghost use Rattle.fd_fault.specs.dss_ready.Ready.{HasPassed};
ghost use Rattle.fd_solving.specs.dss_script.Said.{said_of};
ghost use Rattle.fd_solving.specs.fd_report.declared.faults.Cause.TheVariants.{Model};
ghost use Rattle.fd_solving.specs.fd_report.declared.faults.Fault.TheVariants.{Script};
ghost use Rattle.fd_solving.specs.fd_outside.Causes.{Rose};
ghost use Rattle.fd_solving.specs.fd_outside.Answers.{AgreesSince};
ghost use Rattle.fd_solving.specs.fd_outside.Files.{Files};
ghost use Rattle.fd_solving.specs.fd_outcome.Calls.{report};
ghost use Rattle.fd_solving.specs.fd_outcome.Runs.{Runs};
ghost use Rattle.fd_solving.specs.fd_outcome.Untold.{Answers, IsUntold};
ghost use Rattle.fd_solving.specs.Weights.{weight};
ghost use Rattle.fd_shorting.specs.Placed.{IsFollowed, IsPlacedAs, IsPrintedOnce, IsTestedAs, IsUnplaced};
ghost use Rattle.fd_shorting.specs.Shorting.{IsFaultHistory, IsShorted, IsShortingStep, at_master, no_shorting_name, shorting, snapshot};

use crate::page::ShortReport;
use fd_fault::{CircuitFault, Kind, ModelFault, NodeName, Place, ReadyFault, fault_circuit, ready};
use fd_solving::{
    Cause, Circuit, Command, Compute, Fault, Library, Line, Mode, ModelError, Session, Sink, Tally,
    Text, WANT_OF_MEMORY, apply, no_positions, print_fault, run_script, said_law, solve_hours,
};
use std::alloc::{AllocError, Global};
use std::marker::Model;

// The circuit so far, and what was asked for: the script's name, the bus in lower case, and the kind.
#[derive(Drop)]
struct Shorting {
    circuit: Circuit,
    master: Text,
    bus: Text,
    kind: Kind,
}

impl Model for Shorting {
    ghost use Rattle.std.specs.Prelude.{◌≤◌};
    ghost use Rattle.fd_solving.specs.Weights.{weight};
    ghost use Rattle.fd_shorting.specs.Shorting.{ShortingView, shorting};

    ghost Value = { ShortingView };

    ghost view = { λ s. shorting s.circuit s.master s.bus s.kind };

    // a script has room for no more
    ghost invariant = { λ s. weight s.circuit ≤ 1_048_578 };
}

impl Shorting {
    fn new(alloc: Global, master: &str, bus: &str, kind: Kind) -> Result<Shorting, AllocError>
        ensures { IfOk result (λ s. s ≡ shorting empty_circuit (chars master.now) (lower (chars bus.now)) kind) }
    {
        Ok(Shorting {
            circuit: Circuit::empty(alloc),
            master: Text::new(String::from_str(alloc, master)?),
            bus: Text::new(String::from_str(alloc, bus)?).lowered(alloc)?,
            kind,
        })
    }

    // A cause that no line of the script has.
    fn at_master(&self, cause: ModelFault) -> Result<Fault, AllocError>
        ensures { IfOk result (λ f. f ≡ Script (at_master self.now) (Model cause)) }
    {
        Ok(Fault::Script {
            place: Place {
                file: self.master.clone()?,
                line: 0,
            },
            cause: Cause::Model(cause),
        })
    }

    // The fault that the scripted circuit meets in the tests of Solve, which are made once, where it meets one.
    fn tested(&self, alloc: Global) -> Result<Option<Fault>, AllocError>
        ensures { IfOk result (IsTestedAs self.now) }
    {
        if self.circuit.elements().is_empty() {
            return Ok(Some(self.at_master(ModelFault::NoCircuit)?));
        }
        match ready(alloc, &self.circuit) {
            Ok(()) => Ok(None),
            Err(ReadyFault::Blame(blame)) => Ok(Some(Fault::Script {
                place: blame.place,
                cause: Cause::Model(blame.cause),
            })),
            Err(ReadyFault::NoMemory) => Err(AllocError),
        }
    }

    // The fault for want of a node or of room for the line.
    fn unplaced(&self, fault: CircuitFault) -> Result<Fault, AllocError>
        ensures { IfOk result (IsUnplaced self.now fault) }
    {
        match fault {
            CircuitFault::NoNode { number } => Ok(Fault::NoSuchNode {
                node: NodeName {
                    bus: self.bus.clone()?,
                    number,
                },
            }),
            CircuitFault::TooMany => self.at_master(ModelFault::TooMany),
            CircuitFault::NoMemory => Err(AllocError),
        }
    }

    // The circuit of the short circuit, to be solved once, or the fault in which the run ends.
    fn placed(&self, alloc: Global) -> Result<Result<Circuit, Fault>, AllocError>
        ensures { IfOk result (λ r. IsPlacedAs self.now r) }
    {
        if let Some(fault) = self.tested(alloc)? {
            return Ok(Err(fault));
        }
        match fault_circuit(alloc, &self.circuit, &self.bus, self.kind) {
            Ok(circuit) => Ok(Ok(snapshot(circuit)?)),
            Err(fault) => Ok(Err(self.unplaced(fault)?)),
        }
    }
}

// The circuit in snapshot, whatever mode the script sets.
fn snapshot(circuit: Circuit) -> Result<Circuit, AllocError>
    ensures { IfOk result (λ c. c ≡ snapshot circuit) }
{
    let mut circuit = circuit;
    let mut options = circuit.options().copied()?;
    options.mode = Mode::Snapshot;
    circuit.set_options(options);
    Ok(circuit)
}

// Does a command, of which nothing is solved, tested or printed, or gives the fault in which the run ends.
fn follow(
    alloc: Global,
    circuit: &mut Circuit,
    command: &Command,
) -> Result<Option<Fault>, AllocError>
    requires solves { circuit.old.solves < 2 ^ 32 - 1 }
    requires room { length circuit.old.elements < most_elements }
    ensures followed { IfOk result (IsFollowed command.now circuit.old circuit.new) }
    ensures as_before { OnErr result (circuit.new ≡ circuit.old) }
{
    match apply(alloc, circuit, command) {
        Ok(()) => Ok(None),
        Err(ModelError::Fault(cause)) => Ok(Some(Fault::Script {
            place: command.place.clone()?,
            cause: Cause::Model(cause),
        })),
        Err(ModelError::NoMemory) => Err(AllocError),
    }
}

// Solves the circuit once, at the script's positions, and prints its report.
fn solve_once<S: Sink>(alloc: Global, circuit: &Circuit, begun: bool, out: &mut S) -> u8
    requires { HasPassed circuit.now }
    ensures prints { IsPrintedOnce S.taken S.calls out.old out.new begun circuit.now result }
    ensures answers { Answers S.taken S.calls out.old out.new result }
    ensures later { S.faults out.old ≤ S.faults out.new }
    ensures write { result ≡ 5 → Rose (S.faults out.old) (S.faults out.new) }
    ensures usage { result ≡ 2 → ⊥ }
    ensures read { result ≡ 4 → ⊥ }
{
    let mut at = no_positions(alloc);
    let mut settled = 0;
    let mut begun = begun;
    let mut tally = Tally::none();
    let ended = solve_hours::<ShortReport, S>(
        alloc,
        circuit,
        &mut at,
        &mut Compute::new(alloc),
        &mut settled,
        &mut tally,
        &mut begun,
        out,
    );
    match ended {
        Some(status) => status,
        None => 0,
    }
}

/// Commands make the circuit, and nothing is solved or printed; behind the last one the short circuit is.
impl Line for Shorting {
    ghost is_step = { λ command s step. IsShortingStep command s step };

    ghost last_name = { λ s. no_shorting_name s };

    ghost is_last = { λ s found h. IsShorted s found h };

    ghost tells = { false };

    ghost style = { report };

    ghost weight = { λ s. weight s.circuit };

    fn law() {}

    fn take<S: Sink>(
        &mut self,
        alloc: Global,
        command: Command,
        _begun: &mut bool,
        out: &mut S,
    ) -> Option<u8> {
        match follow(alloc, &mut self.circuit, &command) {
            Ok(None) => None,
            Ok(Some(fault)) => Some(print_fault(alloc, &fault, out)),
            Err(_) => Some(WANT_OF_MEMORY),
        }
    }

    fn finish<L: Library, S: Sink>(
        &mut self,
        alloc: Global,
        _lib: &mut L,
        begun: bool,
        out: &mut S,
    ) -> u8 {
        match self.placed(alloc) {
            Ok(Ok(circuit)) => solve_once(alloc, &circuit, begun, out),
            Ok(Err(fault)) => print_fault(alloc, &fault, out),
            Err(_) => WANT_OF_MEMORY,
        }
    }
}

/// Reads the script of this name, places a short circuit of this kind at the bus, prints the report of its one solution
/// with a record for each phase of the fault, and answers the exit status.
pub fn fault<L: Library, S: Sink>(
    alloc: Global,
    master: &str,
    bus: &str,
    kind: Kind,
    lib: &mut L,
    out: &mut S,
) -> u8
    ensures run { (files : Files) → AgreesSince files (L.answers lib.old) (L.answers lib.new) →
        Runs L.answers S.taken S.calls lib.old lib.new out.old out.new
        (λ h. IsFaultHistory files (said_of files (chars master.now)) (chars master.now) (chars bus.now) kind h) report false result }
    ensures untold { IsUntold L.answers L.holds S.faults S.taken S.calls lib.old lib.new out.old out.new result }
{
    said_law();
    let Ok(mut session) = Session::open(alloc, master) else {
        return WANT_OF_MEMORY;
    };
    let Ok(mut shorting) = Shorting::new(alloc, master, bus, kind) else {
        return WANT_OF_MEMORY;
    };
    run_script(alloc, &mut session, &mut shorting, lib, out)
}
