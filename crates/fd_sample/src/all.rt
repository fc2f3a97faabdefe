// The probes of all controls of a circuit.
ghost use Rattle.std.specs.Prelude.{◌≡◌, ◌++◌, IfOk, OnOk};
ghost use Rattle.std.specs.Option.{option_to_list};
ghost use Rattle.fd_network.specs.dss_layout.Layout.{layout_of};
ghost use Rattle.fd_network.specs.dss_ready.Ready.{HasPassed};
ghost use Rattle.fd_sample.specs.Circuits.{AreProbes, probes_of};

use crate::circuit::probe_at_place;
use crate::numbers::Numbers;
use crate::probe::Probe;
use fd_network::{Circuit, Layout};
use std::alloc::{AllocError, Global};

/// The probes of the controls of a circuit that passed the tests of Solve, whose layout this is, in the script's order.
///
/// # Errors
/// `AllocError` where the memory is refused.
pub fn probes(alloc: Global, circuit: &Circuit, layout: &Layout) -> Result<Vec<Probe>, AllocError>
    requires ready { HasPassed circuit.now }
    requires layout { layout.now ≡ layout_of circuit.now.elements }
    ensures probes { IfOk result (λ ps. ps.items ≡ probes_of circuit.now.elements) }
    ensures fit { IfOk result (λ ps. AreProbes circuit.now.elements ps.items) }
{
    let elements = circuit.elements();
    let numbers = Numbers::of(alloc, elements)?;
    let mut probes = Vec::new(alloc);
    for place in 0..elements.len() {
        let probe = probe_at_place(alloc, circuit, layout, &numbers, place)?;
        add(&mut probes, probe)?;
    }
    Ok(probes)
}

// Adds a probe, if there is one.
fn add(probes: &mut Vec<Probe>, probe: Option<Probe>) -> Result<(), AllocError>
    ensures { OnOk result (probes.new.items ≡ probes.old.items ++ option_to_list probe) }
{
    if let Some(probe) = probe {
        probes.push(probe)?;
    }
    Ok(())
}
