// One hour of a Solve.
ghost use Rattle.std.specs.Prelude.{◌≡◌, ℕ, ◌+◌, ◌^◌, ◌<◌, IfOk, IfSome, None, is_none};
ghost use Rattle.fd_daily.specs.dss_ready.Ready.{HasPassed};
ghost use Rattle.fd_daily.specs.Day.{IsDay, MayBegin, hour_in, hours_done, hours_left};
ghost use Rattle.fd_daily.specs.Underway.{IsUnderway, machine_in};
ghost use Rattle.fd_daily.specs.fd_network.Built.{IsBuiltOf};
ghost use Rattle.fd_daily.specs.fd_sample.Circuits.{probes_of};
ghost use Rattle.fd_daily.specs.fd_sample.Probes.{positions_in};
ghost use Rattle.fd_daily.specs.fd_settings.Daily.{AreDaily};
ghost use Rattle.fd_daily.specs.fd_settle.Controls.{AreAtWork};
ghost use Rattle.fd_daily.specs.fd_settle.Start.{ArePositions};
ghost use Rattle.fd_solving.specs.Answered.{IsMadeHour, kept_in};

use crate::faults::{Failure, failure_of};
use dss_commands::Circuit;
use fd_daily::{Compute, Positions, Round, Underway, daily_run};
use std::alloc::{AllocError, Global};

/// Solves the next hour of a Solve that is under way, and gives the failure in which it ends, where it doesn't end well. The
/// rounds are those of this hour alone.
pub(crate) fn solve_hour(
    alloc: Global,
    circuit: &Circuit,
    underway: &mut Underway<Vec<Round>>,
    at: &mut Positions,
    solver: &mut Compute,
) -> Result<Option<Failure>, AllocError>
    requires ready { HasPassed circuit.now }
    requires underway { IsUnderway circuit.now at.old underway.old }
    ensures made { (n : ℕ) → n + 1 < 2 ^ 32 → IfOk result (λ f. IsMadeHour circuit.now (hour_in underway.old.day)
        (kept_in (machine_in at.old underway.old) n) underway.new.rounds.items f (kept_in (machine_in at.new underway.new) (n + 1))) }
    ensures left { IfOk result (λ f. hours_left underway.old.day ≡ hours_done (is_none f) (hour_in underway.old.day) (hours_left underway.new.day)) }
    ensures positions { ArePositions circuit.now underway.new.powers.loads (positions_in at.new) }
    ensures loads { AreDaily circuit.now.elements underway.new.loads.each.items }
    ensures probes { underway.new.probes.items ≡ probes_of circuit.now.elements }
    ensures day { IsDay underway.new.day }
    ensures built { IsBuiltOf underway.new.net circuit.now }
    ensures work { AreAtWork circuit.now at.new underway.new.clock underway.new.controls }
    ensures numbers { IfOk result (λ f. f ≡ None → IfSome underway.new.day.hour (λ k. MayBegin k (machine_in at.new underway.new).next)) }
{
    // read for what the elements are, and how many acts are allowed
    let _elements = circuit.elements();
    let _options = circuit.options();
    let ended = daily_run(alloc, circuit, underway, at, solver);
    match ended {
        Ok(()) => Ok(None),
        Err(fault) => {
            let failure = failure_of(alloc, circuit, underway.net.layout(), fault)?;
            Ok(Some(failure))
        }
    }
}
