// The settle of the next hour of a Solve.
ghost use Rattle.std.specs.Prelude.{◌≡◌, IfSome, OnOk, is_ok};
ghost use Rattle.fd_settle.specs.dss_ready.Ready.{HasPassed};
ghost use Rattle.fd_settings.specs.Daily.{AreDaily};
ghost use Rattle.fd_settle.specs.fd_network.Built.{IsBuiltOf};
ghost use Rattle.fd_settle.specs.fd_sample.Circuits.{probes_of};
ghost use Rattle.fd_settle.specs.fd_sample.Probes.{positions_in};
ghost use Rattle.fd_settle.specs.Controls.{AreAtWork};
ghost use Rattle.fd_settle.specs.Contract.{limits_of};
ghost use Rattle.fd_settle.specs.Start.{ArePositions};
ghost use Rattle.fd_daily.specs.Day.{IsDay, MayBegin, hour_in, hour_kept, hours_done, hours_left};
ghost use Rattle.fd_daily.specs.Underway.{HasSettledHour, IsUnderway, machine_in};

use crate::day::time_of;
use crate::underway::Underway;
use fd_settings::{Circuit, Positions};
use fd_settle::{Journal, SettleFault, Solver, settle};
use std::alloc::Global;

/// Solves the next hour of a Solve that is under way: one settle at the time of the hour. What is kept of its rounds is
/// left in `rounds`. The circuit passed the tests of Solve. Positions, the banks' opening times, latest moves and the queue are
/// what the acts left; where the settle ended well, the hour behind it comes next. Where the time goes on with the hours,
/// the queue and the latest moves are kept over them, and else each hour begins without.
///
/// # Errors
/// Those of `settle`. After each of them the same hour comes next.
pub fn daily_run<V: Solver, K: Journal>(
    alloc: Global,
    circuit: &Circuit,
    underway: &mut Underway<K>,
    at: &mut Positions,
    solver: &mut V,
) -> Result<(), SettleFault<V::Fault>>
    requires ready { HasPassed circuit.now }
    requires underway { IsUnderway circuit.now at.old underway.old }
    // The rounds are those of this hour alone. Their acts are those of the settle over their certified states, from the
    // machine with which the hour begins by what the hour before left; positions and controls then show what it leaves.
    // How it ends is how that settle ends. The solver was called once for each of these rounds, in order, and once more
    // where it answered a fault, and each certified state is sound.
    ensures settled { HasSettledHour (λ v. V.gives v (limits_of circuit.now.options)) K.holds circuit.now underway.old.day
        solver.old solver.new (machine_in at.old underway.old) (machine_in at.new underway.new) underway.new.rounds result }
    // The hours that are left are those behind it where it ended well, and else the same.
    ensures hour { underway.new.day.hour ≡ hour_kept (is_ok result) (hour_in underway.old.day) underway.old.day }
    ensures last { underway.new.day.last ≡ underway.old.day.last }
    ensures left { hours_left underway.old.day ≡ hours_done (is_ok result) (hour_in underway.old.day) (hours_left underway.new.day) }
    // What the next hour asks for.
    ensures powers { underway.new.powers ≡ underway.old.powers }
    ensures positions { ArePositions circuit.now underway.new.powers.loads (positions_in at.new) }
    ensures loads { AreDaily circuit.now.elements underway.new.loads.each.items }
    ensures probes { underway.new.probes.items ≡ probes_of circuit.now.elements }
    ensures day { IsDay underway.new.day }
    ensures built { IsBuiltOf underway.new.net circuit.now }
    ensures work { AreAtWork circuit.now at.new underway.new.clock underway.new.controls }
    ensures numbers { OnOk result (IfSome underway.new.day.hour (λ k. MayBegin k (machine_in at.new underway.new).next)) }
{
    let hour = underway.hour();
    underway.rounds.forget();
    underway
        .controls
        .begin_hour(&mut underway.clock, time_of(hour));
    let ended = settle(
        alloc,
        circuit,
        &mut underway.net,
        &underway.powers,
        at,
        &mut underway.clock,
        &mut underway.controls,
        solver,
        &mut underway.rounds,
    );
    underway.day.end_hour(hour, ended.is_ok());
    ended
}
