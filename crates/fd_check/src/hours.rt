// The hours of a Solve, each settled with the states that the certificate claims.
ghost use Rattle.std.specs.Prelude.{ℕ, ◌+◌, ◌^◌, ◌<◌, ◌≤◌, [], ◌∷◌, All, IfErr, List, OnOk};
ghost use Rattle.fd_daily.specs.dss_ready.Ready.{HasPassed};
ghost use Rattle.fd_daily.specs.fd_xfmr.Leakage.{AreTaps};
ghost use Rattle.fd_daily.specs.fd_sample.Probes.{positions_in};
ghost use Rattle.fd_daily.specs.fd_settle.Start.{ArePositions};
ghost use Rattle.fd_daily.specs.Underway.{IsLeftBehind, IsUnderway, machine_in};
ghost use Rattle.fd_check.specs.Comes.{LeadsForAll, TellsForAll};
ghost use Rattle.fd_check.specs.Hours.{behind_hour, hour_open, hours_open, solves_open};

use crate::compare::judge_hour;
use crate::fault::CheckFault;
use dss_commands::Circuit;
use fd_certfile::{CertReader, certificate_law};
use fd_daily::{ActJournal, Positions, Underway, daily_run};
use std::alloc::Global;

/// Checks the blocks of one Solve, hour by hour, on the networks of a circuit that passed the tests of Solve; the Solve
/// before left these positions, and there were so many settles so far. The reader stands behind the blocks of the Solves
/// before. Behind it the reader stands behind the Solve's blocks, and positions and the number of settles are those of the
/// Solve's end.
///
/// # Errors
/// `Refused` at the first rule that the certificate breaks, with the line that it names; `Range` where the network of the
/// block that is due is out of range, and the blocks before it break no rule; `NoMemory`.
pub(crate) fn check_solve(
    alloc: Global,
    circuit: &Circuit,
    at: &mut Positions,
    settled: &mut u32,
    reader: &mut CertReader<'_>,
) -> Result<(), CheckFault>
    requires ready { HasPassed circuit.now }
    requires taps { All AreTaps at.old.taps }
    requires settles { settled.old + 8761 < 2 ^ 32 }
    // Whatever the certificate comes to from there, with whatever Solves behind this one, it comes to from here.
    ensures goes { OnOk result (LeadsForAll
        reader.old (solves_open (circuit.now ∷ []) at.old settled.old)
        reader.new (solves_open [] at.new settled.new)) }
    ensures refused { IfErr result (TellsForAll reader.old (solves_open (circuit.now ∷ []) at.old settled.old)) }
    ensures taps { All AreTaps at.new.taps }
    ensures settles { settled.new ≤ settled.old + 8761 }
{
    certificate_law();
    match Underway::start(alloc, circuit, at) {
        Ok(underway) => {
            let mut underway = underway;
            check_hours(alloc, circuit, &mut underway, at, settled, reader)
        }
        Err(fault) => Err(CheckFault::from(fault)),
    }
}

// Checks the hours that are left.
fn check_hours(
    alloc: Global,
    circuit: &Circuit,
    underway: &mut Underway<ActJournal>,
    at: &mut Positions,
    settled: &mut u32,
    reader: &mut CertReader<'_>,
) -> Result<(), CheckFault>
    requires ready { HasPassed circuit.now }
    requires underway { IsUnderway circuit.now at.old underway.old }
    requires settles { settled.old + 8761 < 2 ^ 32 }
    ensures goes { OnOk result (LeadsForAll
        reader.old (hours_open circuit.now underway.old.day (machine_in at.old underway.old) settled.old)
        reader.new (solves_open [] at.new settled.new)) }
    ensures refused { IfErr result (TellsForAll reader.old (hours_open circuit.now underway.old.day (machine_in at.old underway.old) settled.old)) }
    ensures taps { All AreTaps at.new.taps }
    ensures settles { settled.new ≤ settled.old + 8761 }
{
    certificate_law();
    loop {
        if let Err(fault) = check_hour(alloc, circuit, underway, at, *settled + 1, reader) {
            return Err(fault);
        }
        *settled += 1;
        if underway.day.next_hour().is_none() {
            return Ok(());
        }
        if let Err(refusal) = underway.next_network(alloc, circuit, at) {
            return Err(CheckFault::from(refusal));
        }
    }
}

// Checks the blocks of the next hour, whose settle has this number in the run. Of a round whose block was judged its acts
// alone are kept.
fn check_hour(
    alloc: Global,
    circuit: &Circuit,
    underway: &mut Underway<ActJournal>,
    at: &mut Positions,
    number: u32,
    reader: &mut CertReader<'_>,
) -> Result<(), CheckFault>
    requires ready { HasPassed circuit.now }
    requires underway { IsUnderway circuit.now at.old underway.old }
    ensures goes { (hours : List ℕ) → OnOk result (LeadsForAll
        reader.old (hour_open circuit.now underway.old.day (machine_in at.old underway.old) number hours)
        reader.new (behind_hour circuit.now (machine_in at.new underway.new) number hours)) }
    ensures refused { (hours : List ℕ) → IfErr result (TellsForAll
        reader.old (hour_open circuit.now underway.old.day (machine_in at.old underway.old) number hours)) }
    ensures left { OnOk result (IsLeftBehind circuit.now at.new underway.old underway.new) }
    ensures positions { ArePositions circuit.now underway.new.powers.loads (positions_in at.new) }
{
    certificate_law();
    let hour = underway.hour();
    reader.begin(number, hour);
    let first = reader.given();
    let ended = daily_run(alloc, circuit, underway, at, reader);
    judge_hour(reader, first, &underway.rounds.acts, ended)
}
