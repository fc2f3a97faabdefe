// The sweep of a circuit.
ghost use Rattle.std.specs.Prelude.{◌≤◌, All};
ghost use Rattle.fd_network.specs.dss_ready.Ready.{HasPassed};
ghost use Rattle.fd_network.specs.Built.{IsBuiltOf};
ghost use Rattle.fd_network.specs.fd_devices.fd_xfmr.Leakage.{AreTaps};
ghost use Rattle.fd_sweep.specs.Sweep.{Answers, StandsAt, sweep_result};

use crate::ladder::ladder_in;
use fd_ladder::{LadderFault, radial};
use fd_network::{Circuit, Network, Positions};
use fd_series::{Swept, sweeps};
use std::alloc::Global;

/// How Kersting's ladder sweep of a circuit ends at the positions of its network, by exact rounding: `Settled` with the
/// state and the number of sweeps, `NotConverged` after 10 x MaxIterations sweeps, or `OutOfRange` with the place of the
/// first part past 2^40 in size and the sweep in which it is made (Kersting, ladder iterative technique). It walks Lines
/// and Transformers alone, and there is no limit of unknowns here.
///
/// The circuit passed the tests of Solve, and the network was built of it at these positions.
///
/// # Errors
/// `NotRadial` with the number of the first element that offends, exactly where the circuit isn't radial.
pub fn sweep(
    alloc: Global,
    circuit: &Circuit,
    net: &Network,
    at: &Positions,
    max_iterations: u32,
) -> Result<Swept, LadderFault>
    requires ready { HasPassed circuit.now }
    requires built { IsBuiltOf net.now circuit.now }
    requires at { StandsAt net.now at.now }
    requires within { All AreTaps at.now.taps }
    requires few { max_iterations ≤ 1000 }
    ensures { Answers result (sweep_result circuit.now at.now net.now.rows max_iterations) }
{
    let order = radial(alloc, circuit)?;
    let ladder = ladder_in(alloc, circuit, net, at, &order)?;
    let nodes = net.layout().nodes().len() as u32;
    let rows = net.rows();
    Ok(sweeps(
        alloc,
        &ladder,
        rows.loads(),
        nodes,
        net.size(),
        10 * max_iterations,
    )?)
}
