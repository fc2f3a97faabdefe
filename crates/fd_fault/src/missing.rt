// The nodes that a short circuit is asked for.
ghost use Rattle.std.specs.Prelude.{◌≡◌, IfOk, None};
ghost use Rattle.dss_ready.specs.dss_layout.Layout.{first_too_many, layout_of};
ghost use Rattle.fd_fault.specs.FaultCircuit.{first_missing, is_missing, missing_in};

use crate::kind::Kind;
use dss_ready::{Circuit, Layout, NodeName, Text};
use std::alloc::{AllocError, Global};

fn is_missing(layout: &Layout, name: &NodeName) -> bool
    ensures { result ≡ is_missing layout.now.nodes name.now.bus name.now.number }
{
    layout.number_of(name) == layout.nodes().len()
}

fn missing_in(layout: &Layout, bus: &Text, numbers: &[u8]) -> Result<Option<u8>, AllocError>
    ensures { IfOk result (λ n. n ≡ missing_in layout.now.nodes bus.now numbers.now) }
{
    for number in numbers {
        let name = NodeName {
            bus: bus.clone()?,
            number: *number,
        };
        if is_missing(layout, &name) {
            return Ok(Some(*number));
        }
    }
    Ok(None)
}

// The layout of a circuit of which no element passes a limit on the unknowns, so memory alone can be wanting.
fn layout(alloc: Global, circuit: &Circuit) -> Result<Layout, AllocError>
    requires { first_too_many circuit.now.elements ≡ None }
    ensures { IfOk result (λ l. l ≡ layout_of circuit.now.elements) }
{
    match Layout::of(alloc, circuit.elements()) {
        Ok(layout) => Ok(layout),
        Err(_) => Err(AllocError),
    }
}

/// The first node of the bus that is to be joined to ground and isn't a node of the circuit.
pub(crate) fn first_missing(
    alloc: Global,
    circuit: &Circuit,
    bus: &Text,
    kind: Kind,
) -> Result<Option<u8>, AllocError>
    requires { first_too_many circuit.now.elements ≡ None }
    ensures { IfOk result (λ n. n ≡ first_missing circuit.now.elements bus.now kind) }
{
    let layout = layout(alloc, circuit)?;
    missing_in(&layout, bus, kind.nodes())
}
