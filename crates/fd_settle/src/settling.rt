// A settle: solve, sample and act, and again.
ghost use Rattle.std.specs.Prelude.{◌≡◌, ◌+◌, ◌<◌, ◌^◌, ◌≤◌, [], All, IfOk, List, OnOk, vec_capacity};
ghost use Rattle.fd_sample.specs.dss_model.InRange.{OptionsInRange};
ghost use Rattle.fd_sample.specs.dss_ready.Ready.{HasPassed};
ghost use Rattle.fd_sample.specs.fd_devices.Building.{IsModest};
ghost use Rattle.fd_sample.specs.fd_network.Built.{IsBuiltOf};
ghost use Rattle.fd_inject.specs.Procedure.{IsLimits};
ghost use Rattle.fd_sample.specs.Probes.{positions_in};
ghost use Rattle.fd_settle.specs.Contract.{HasSettled, limits_of};
ghost use Rattle.fd_settle.specs.Controls.{AreAtWork, end_told, machine_of};
ghost use Rattle.fd_settle.specs.declared.round.Round.{Round};
ghost use Rattle.fd_settle.specs.Start.{ArePositions, IsClock, IsNetworkAt};

use crate::clock::Clock;
use crate::controls::Controls;
use crate::fault::SettleFault;
use crate::journal::Journal;
use crate::progress::Progress;
use crate::round::{Act, Round};
use crate::solver::Solver;
use fd_inject::Limits;
use fd_sample::{Circuit, Network, Options, Positions, Powers, count_law};
use std::alloc::{AllocError, Global};

/// Solves, samples and acts, and again, until no entry of the queue is due after a sampling. What `rounds` keeps of
/// each solved round is put behind what it has. The circuit passed the tests of Solve, and the network is its own at
/// the positions as they are and these powers; it is brought up to date after each act. The controls stand at the
/// start of their hour. In controlmode off a settle is one solve, and no control is sampled.
///
/// # Errors
/// `Range` exactly where the network at the positions that the acts left is out of range; `Solver` with the solver's
/// own fault; `Undecided` exactly at the first control whose sample is undecided; `ControlLimit` exactly where an entry
/// is due after as many acts as the options allow; `NoMemory`. After each of them `rounds` keeps what was solved in this
/// settle, and `at`, `clock` and `controls` are what the acts of these rounds left; after `NoMemory` the last solved round
/// may be missing.
pub fn settle<V: Solver, K: Journal>(
    alloc: Global,
    circuit: &Circuit,
    net: &mut Network,
    powers: &Powers,
    at: &mut Positions,
    clock: &mut Clock,
    controls: &mut Controls,
    solver: &mut V,
    rounds: &mut K,
) -> Result<(), SettleFault<V::Fault>>
    requires ready { HasPassed circuit.now }
    requires positions { ArePositions circuit.now powers.now.loads (positions_in at.old) }
    requires modest { All IsModest powers.now.loads }
    requires clock { IsClock circuit.now clock.old }
    requires work { AreAtWork circuit.now at.old clock.old controls.old }
    requires numbers { (machine_of at.old clock.old controls.old).next < 2 ^ 61 }
    requires network { IsNetworkAt circuit.now powers.now.loads (positions_in at.old) net.old }
    // Some rounds were made, and `rounds` keeps them behind those that it kept. Their acts are those of the settle over
    // their certified states, from the machine that the controls, the positions and the clock show; these then show the
    // machine that it leaves. How it ends is how that settle ends. The solver was called once for each of these rounds, in
    // order, and once more where it answered a fault, and each certified state is sound.
    ensures settled { HasSettled (λ v. V.gives v (limits_of circuit.now.options)) K.holds circuit.now powers.now.loads
        solver.old solver.new (machine_of at.old clock.old controls.old) (machine_of at.new clock.new controls.new)
        rounds.old rounds.new result }
    ensures now { clock.new.now ≡ clock.old.now }
    // What the next hour starts with.
    ensures positions { ArePositions circuit.now powers.now.loads (positions_in at.new) }
    ensures clock { IsClock circuit.now clock.new }
    ensures work { AreAtWork circuit.now at.new clock.new controls.new }
    ensures few { (machine_of at.new clock.new controls.new).next ≤ (machine_of at.old clock.old controls.old).next + 2 ^ 25 }
    ensures built { IsBuiltOf net.new circuit.now }
{
    count_law();
    let limits = limits_of(circuit.options());
    loop {
        // read for what a network is
        let _size = net.size();
        let certified = match solver.solve(alloc, &net.rows(), &limits) {
            Ok(certified) => certified,
            Err(fault) => return Err(SettleFault::Solver(fault)),
        };
        let mut acts = room_for_round(alloc, controls.count(), rounds)?;
        let progress = controls.step(at, clock, certified.as_ref(), &mut acts);
        rounds.keep(Round { certified, acts });
        if let Some(end) = ended(progress) {
            return end;
        }
        net.update(circuit, at, powers)?;
    }
}

// How long and how far the options let the procedure iterate.
fn limits_of(options: &Options) -> Limits
    requires { OptionsInRange options.now }
    ensures limits { result ≡ limits_of options.now }
    ensures in_range { IsLimits result }
{
    Limits {
        max_iterations: options.maxiterations,
        tolerance: options.tolerance,
    }
}

// Room for one round more, and for one act of each control in it.
fn room_for_round<K: Journal>(
    alloc: Global,
    controls: usize,
    rounds: &mut K,
) -> Result<Vec<Act>, AllocError>
    ensures empty { IfOk result (λ acts. acts.items ≡ []) }
    ensures acts { IfOk result (λ acts. controls ≤ vec_capacity acts) }
    ensures room { OnOk result (K.has_room rounds.new) }
    ensures kept { (made : List Round) → K.holds rounds.old made → K.holds rounds.new made }
{
    let acts = Vec::with_capacity(alloc, controls)?;
    rounds.make_room()?;
    Ok(acts)
}

// How a round ends the settle, if it does.
fn ended<F>(progress: Progress) -> Option<Result<(), SettleFault<F>>>
    ensures { result ≡ end_told progress }
{
    match progress {
        Progress::Moved => None,
        Progress::Settled => Some(Ok(())),
        Progress::Limited { acts } => Some(Err(SettleFault::ControlLimit { acts })),
        Progress::Undecided {
            control,
            low,
            high,
            edge,
        } => Some(Err(SettleFault::Undecided {
            control,
            low,
            high,
            edge,
        })),
    }
}
