// The circuit of a short circuit.
ghost use Rattle.std.specs.Prelude.{◌≡◌, ◌<◌, length, All, IfErr, IfOk, None};
ghost use Rattle.dss_ready.specs.dss_model.declared.names.Class.TheVariants as class;
ghost use Rattle.dss_ready.specs.dss_circuit.Limits.{most_elements};
ghost use Rattle.dss_ready.specs.dss_circuit.Without.{OthersNameNone, without};
ghost use Rattle.dss_ready.specs.Ready.{HasPassed};
ghost use Rattle.dss_ready.specs.dss_layout.Layout.{first_too_many};
ghost use Rattle.fd_fault.specs.FaultCircuit.{IsCircuitFault, IsFaultCircuit, IsPast, first_missing, stripped};

use crate::fault::CircuitFault;
use crate::kind::Kind;
use crate::laws::passed_law;
use crate::line::fault_line;
use crate::missing::first_missing;
use crate::names::free_name;
use dss_ready::{Circuit, Class, Element, Layout, LayoutFault, Text};
use std::alloc::{AllocError, Global};

fn drop_controls(circuit: &mut Circuit)
    ensures { circuit.new ≡ record circuit.old { elements = without class.RegControl (without class.CapControl circuit.old.elements) } }
{
    circuit.drop_class(Class::CapControl);
    circuit.drop_class(Class::RegControl);
}

fn drop_loads(circuit: &mut Circuit)
    requires { OthersNameNone class.Capacitor circuit.old.elements }
    ensures { circuit.new ≡ record circuit.old { elements = without class.Load (without class.Capacitor circuit.old.elements) } }
{
    circuit.drop_class(Class::Capacitor);
    circuit.drop_class(Class::Load);
}

// Takes out what draws current, and the controls: first the capacitors' controls, which name them.
fn strip(circuit: &mut Circuit)
    ensures { circuit.new ≡ record circuit.old { elements = stripped circuit.old.elements } }
{
    // read for what the elements are
    let _elements = circuit.elements();
    drop_controls(circuit);
    drop_loads(circuit);
}

// Whether no element passes a limit on the unknowns.
fn test_limits(alloc: Global, circuit: &Circuit) -> Result<(), CircuitFault>
    ensures within { IfOk result (λ _. first_too_many circuit.now.elements ≡ None) }
    ensures past { IfErr result (IsPast circuit.now.elements) }
{
    match Layout::of(alloc, circuit.elements()) {
        Ok(_) => Ok(()),
        Err(LayoutFault::TooMany(_)) => Err(CircuitFault::TooMany),
        Err(LayoutFault::NoMemory) => Err(CircuitFault::NoMemory),
    }
}

// The circuit without what draws current, with the line.
fn with_line(
    alloc: Global,
    circuit: &Circuit,
    bus: &Text,
    kind: Kind,
) -> Result<Circuit, AllocError>
    requires room { length circuit.now.elements < most_elements }
    requires nodes { first_missing circuit.now.elements bus.now kind ≡ None }
    ensures { IfOk result (IsFaultCircuit circuit.now bus.now kind) }
{
    let name = free_name(alloc, circuit.elements())?;
    let line = fault_line(alloc, bus, kind)?;
    let mut fault = circuit.copy(alloc)?;
    strip(&mut fault);
    fault.put(name, Element::Line(line))?;
    Ok(fault)
}

/// The circuit of a short circuit at a bus, which goes by its name in lower case: the scripted circuit without its Loads,
/// Capacitors, RegControls and CapControls, with a line of zero impedance and no charging at its end, from the nodes of
/// the bus to ground. The line has the first of the names short, short-1, short-2 and so on that no Line has. The
/// scripted circuit passed the tests of Solve; so has this one.
///
/// # Errors
/// `NoNode` exactly where a node isn't one of the scripted circuit, with the first such; `TooMany` exactly where with the
/// line there are more nodes and branch phases than may be; `NoMemory`.
pub fn fault_circuit(
    alloc: Global,
    circuit: &Circuit,
    bus: &Text,
    kind: Kind,
) -> Result<Circuit, CircuitFault>
    requires ready { HasPassed circuit.now }
    requires room { length circuit.now.elements < most_elements }
    ensures circuit { IfOk result (IsFaultCircuit circuit.now bus.now kind) }
    ensures ready { IfOk result (λ c. HasPassed c) }
    ensures fault { IfErr result (IsCircuitFault circuit.now bus.now kind) }
{
    passed_law();
    match first_missing(alloc, circuit, bus, kind)? {
        Some(number) => Err(CircuitFault::NoNode { number }),
        None => {
            let fault = with_line(alloc, circuit, bus, kind)?;
            test_limits(alloc, &fault)?;
            Ok(fault)
        }
    }
}
