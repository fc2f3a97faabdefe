// The hours of a Solve, each printed before the next is solved.
ghost use Rattle.std.specs.Prelude.{◌≡◌, ◌+◌, ◌^◌, ◌<◌, ◌≤◌, All, IfSome, None, true};
ghost use Rattle.fd_pages.specs.fd_outside.Causes.{Rose};
ghost use Rattle.fd_daily.specs.dss_ready.Ready.{HasPassed};
ghost use Rattle.fd_daily.specs.Day.{hour_in, hours_left};
ghost use Rattle.fd_daily.specs.Underway.{IsLeftBehind, IsUnderway, machine_in};
ghost use Rattle.fd_daily.specs.fd_sample.Probes.{positions_in};
ghost use Rattle.fd_daily.specs.fd_settle.Start.{ArePositions};
ghost use Rattle.fd_daily.specs.fd_xfmr.Leakage.{AreTaps};
ghost use Rattle.fd_pages.specs.fd_report.declared.faults.Cause.TheVariants.{Model};
ghost use Rattle.fd_pages.specs.fd_report.declared.faults.Fault.TheVariants.{Script};
ghost use Rattle.fd_pages.specs.fd_outcome.Parts.{EndsAt, Printed, fault_doing};
ghost use Rattle.fd_solving.specs.Answered.{kept_in};
ghost use Rattle.fd_solving.specs.Tallies.{GoesOnTallied, HasRoom};
ghost use Rattle.fd_solving.specs.Printing.{EndsInHour, IsPrintedHour};
ghost use Rattle.fd_solving.specs.Solving.{IsHoursStep, IsSolutionStep};
ghost use Rattle.fd_solving.specs.Steps.{standing};

use crate::answer::refused;
use crate::hour::solve_hour;
use crate::print::{WANT_OF_MEMORY, print_failed, print_fault, print_pending, print_settled};
use crate::tally::Tally;
use dss_commands::{Blame, Circuit};
use fd_daily::{BuildFault, Compute, Positions, Round, Underway};
use fd_pages::{Cause, Page, Sink, SolvedHour};
use std::alloc::Global;

/// Solves the hours of a Solve of a circuit that passed the tests, where its last Solve left these positions, and prints
/// the records of each before the next is solved. The rounds of each are added to the tally. An answer ends the run.
/// What the solver keeps from Solve to Solve is seen by no answer.
pub fn solve_hours<P: Page, S: Sink>(
    alloc: Global,
    circuit: &Circuit,
    at: &mut Positions,
    solver: &mut Compute,
    settled: &mut u32,
    tally: &mut Tally,
    begun: &mut bool,
    out: &mut S,
) -> Option<u8>
    requires ready { HasPassed circuit.now }
    requires taps { All AreTaps at.old.taps }
    requires settles { settled.old + 8761 < 2 ^ 32 }
    requires room { HasRoom tally.old settled.old }
    ensures goes { result ≡ None
        → GoesOnTallied P.style (IsSolutionStep (standing circuit.now (positions_in at.old) settled.old))
        (standing circuit.now (positions_in at.new) settled.new) S.taken S.calls out.old out.new begun.old begun.new
        tally.old tally.new }
    ensures ends { IfSome result
        (EndsAt P.style (IsSolutionStep (standing circuit.now (positions_in at.old) settled.old)) S.taken
        S.calls out.old out.new begun.old) }
    ensures taps { All AreTaps at.new.taps }
    ensures settles { settled.new ≤ settled.old + 8761 }
    ensures room { HasRoom tally.new settled.new }
    ensures later { S.faults out.old ≤ S.faults out.new }
    ensures write { IfSome result (λ code. code ≡ 5 → Rose (S.faults out.old) (S.faults out.new)) }
    ensures usage { IfSome result (λ code. code ≡ 2 → ⊥) }
    ensures read { IfSome result (λ code. code ≡ 4 → ⊥) }
{
    // read for how many hours there can be
    let _options = circuit.options();
    P::law();
    match Underway::start(alloc, circuit, at) {
        Ok(underway) => {
            let mut underway = underway;
            run_hours::<P, S>(
                alloc,
                circuit,
                &mut underway,
                at,
                solver,
                settled,
                tally,
                begun,
                out,
            )
        }
        Err(BuildFault::Range(blame)) => Some(print_range(alloc, &blame, out)),
        Err(BuildFault::NoMemory) => Some(WANT_OF_MEMORY),
    }
}

// Prints the fault of a network that is out of range.
fn print_range<S: Sink>(alloc: Global, blame: &Blame, out: &mut S) -> u8
    ensures prints { Printed S.taken S.calls out.old out.new true (fault_doing (Script blame.now.place (Model blame.now.cause))) result }
    ensures later { S.faults out.old ≤ S.faults out.new }
    ensures write { result ≡ 5 → Rose (S.faults out.old) (S.faults out.new) }
{
    match refused(&blame.place, Cause::Model(blame.cause)) {
        Ok(fault) => print_fault(alloc, &fault, out),
        Err(_) => WANT_OF_MEMORY,
    }
}

// Solves and prints the next hour. An answer ends the run.
fn do_hour<P: Page, S: Sink>(
    alloc: Global,
    circuit: &Circuit,
    underway: &mut Underway<Vec<Round>>,
    at: &mut Positions,
    solver: &mut Compute,
    settled: &mut u32,
    tally: &mut Tally,
    begun: &mut bool,
    out: &mut S,
) -> Option<u8>
    requires ready { HasPassed circuit.now }
    requires underway { IsUnderway circuit.now at.old underway.old }
    requires settles { settled.old + 1 < 2 ^ 32 }
    requires room { HasRoom tally.old settled.old }
    ensures goes { result ≡ None
        → IsPrintedHour P.style S.taken S.calls out.old out.new begun.old circuit.now (hour_in underway.old.day)
        (kept_in (machine_in at.old underway.old) settled.old) (kept_in (machine_in at.new underway.new) settled.new) begun.new
        tally.old tally.new }
    ensures ends { IfSome result (EndsInHour P.style S.taken S.calls out.old out.new begun.old circuit.now
        (hour_in underway.old.day) (kept_in (machine_in at.old underway.old) settled.old)) }
    ensures left { result ≡ None → IsLeftBehind circuit.now at.new underway.old underway.new }
    ensures positions { ArePositions circuit.now underway.new.powers.loads (positions_in at.new) }
    ensures settles { settled.new ≤ settled.old + 1 }
    ensures room { HasRoom tally.new settled.new }
    ensures later { S.faults out.old ≤ S.faults out.new }
    ensures write { IfSome result (λ code. code ≡ 5 → Rose (S.faults out.old) (S.faults out.new)) }
    ensures usage { IfSome result (λ code. code ≡ 2 → ⊥) }
    ensures read { IfSome result (λ code. code ≡ 4 → ⊥) }
{
    let hour = underway.hour();
    let number = *settled + 1;
    let Ok(failure) = solve_hour(alloc, circuit, underway, at, solver) else {
        return Some(WANT_OF_MEMORY);
    };
    let made = SolvedHour {
        circuit,
        net: &underway.net,
        number,
        hour,
        rounds: &underway.rounds,
        probes: &underway.probes,
    };
    match failure {
        Some(failure) => Some(print_failed::<P, S>(alloc, &made, failure, at, *begun, out)),
        None => {
            let printed = print_settled::<P, S>(alloc, &made, at, begun, out);
            if printed.is_none() {
                *settled = number;
                tally.add(made.net.layout(), made.rounds);
            }
            printed
        }
    }
}

// Solves and prints the hours that are left, and behind the last one the entries that still wait in the queue.
fn run_hours<P: Page, S: Sink>(
    alloc: Global,
    circuit: &Circuit,
    underway: &mut Underway<Vec<Round>>,
    at: &mut Positions,
    solver: &mut Compute,
    settled: &mut u32,
    tally: &mut Tally,
    begun: &mut bool,
    out: &mut S,
) -> Option<u8>
    requires ready { HasPassed circuit.now }
    requires underway { IsUnderway circuit.now at.old underway.old }
    requires settles { settled.old + 8761 < 2 ^ 32 }
    requires room { HasRoom tally.old settled.old }
    ensures goes { result ≡ None
        → GoesOnTallied P.style
        (IsHoursStep circuit.now (hours_left underway.old.day) (kept_in (machine_in at.old underway.old) settled.old))
        (standing circuit.now (positions_in at.new) settled.new) S.taken S.calls out.old out.new begun.old begun.new
        tally.old tally.new }
    ensures ends { IfSome result (EndsAt P.style
        (IsHoursStep circuit.now (hours_left underway.old.day) (kept_in (machine_in at.old underway.old) settled.old)) S.taken
        S.calls out.old out.new begun.old) }
    ensures taps { All AreTaps at.new.taps }
    ensures settles { settled.new ≤ settled.old + 8761 }
    ensures room { HasRoom tally.new settled.new }
    ensures later { S.faults out.old ≤ S.faults out.new }
    ensures write { IfSome result (λ code. code ≡ 5 → Rose (S.faults out.old) (S.faults out.new)) }
    ensures usage { IfSome result (λ code. code ≡ 2 → ⊥) }
    ensures read { IfSome result (λ code. code ≡ 4 → ⊥) }
{
    P::law();
    loop {
        let ended = do_hour::<P, S>(
            alloc, circuit, underway, at, solver, settled, tally, begun, out,
        );
        if ended.is_some() {
            return ended;
        }
        if underway.day.next_hour().is_none() {
            return print_pending::<P, S>(alloc, circuit, underway.controls.pending(), begun, out);
        }
        match underway.next_network(alloc, circuit, at) {
            Ok(()) => {}
            Err(BuildFault::Range(blame)) => return Some(print_range(alloc, &blame, out)),
            Err(BuildFault::NoMemory) => return Some(WANT_OF_MEMORY),
        }
    }
}
