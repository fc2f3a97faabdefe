// Options set, and Solves counted.
ghost use Rattle.std.specs.Prelude.{◌<◌, ◌^◌, ◌-◌};
ghost use Rattle.dss_circuit.specs.dss_model.Changes.{Becomes};
ghost use Rattle.dss_commands.specs.Commands.{set, solve};

use crate::elements::is_begun;
use crate::keys::check_circuit;
use dss_circuit::{Circuit, ModelError, Pair};
use dss_profile::with_options;
use std::alloc::Global;

/// Sets these pairs as options.
#[tactic(auto, unfolding(crate::specs::Commands::set))]
pub fn set(alloc: Global, circuit: &mut Circuit, pairs: &[Pair]) -> Result<(), ModelError>
    ensures { Becomes circuit.old circuit.new result (set pairs.now circuit.old) }
{
    let options = with_options(alloc, circuit.options(), pairs)?;
    circuit.set_options(options);
    Ok(())
}

/// Sets these pairs as options, and counts a Solve, where there is a circuit.
#[tactic(auto, unfolding(crate::specs::Commands::solve))]
pub fn solve(alloc: Global, circuit: &mut Circuit, pairs: &[Pair]) -> Result<(), ModelError>
    requires { circuit.old.solves < 2 ^ 32 - 1 }
    ensures { Becomes circuit.old circuit.new result (solve pairs.now circuit.old) }
{
    check_circuit(is_begun(circuit))?;
    let options = with_options(alloc, circuit.options(), pairs)?;
    circuit.set_options(options);
    circuit.count_solve();
    Ok(())
}
