// All tests of Solve.
ghost use Rattle.std.specs.Prelude.{◌≡◌, ◌<◌, IfOk, length};
ghost use Rattle.dss_layout.specs.Layout.{LaysOut, laid_out};
ghost use Rattle.dss_ready.specs.Ready.{own_blame, blame_at, IsAnswer};
ghost use Rattle.dss_ready.specs.Walk.{Answers};

use crate::ReadyFault;
use crate::feeding::first_isolated;
use crate::mention::all_mentions;
use crate::walk::{blame, find_blame};
use dss_circuit::{Blame, Circuit, ModelFault};
use dss_layout::{Layout, LayoutFault};
use std::alloc::{AllocError, Global};

// The first element that is to blame for a cause of its own.
fn find_own_blame(alloc: Global, circuit: &Circuit) -> Result<(), ReadyFault>
    ensures { Answers result (own_blame circuit.now) }
{
    let elements = circuit.elements();
    let mentions = all_mentions(alloc, elements)?;
    let hertz = circuit.options().defaultbasefrequency;
    find_blame(alloc, elements, &mentions, hertz)
}

// The element at a place in order, to blame for a cause.
fn blame_place(circuit: &Circuit, place: usize, cause: ModelFault) -> Result<Blame, AllocError>
    requires { place < length circuit.now.elements }
    ensures { IfOk result (λ blame. blame_at cause circuit.now.elements place ≡ Some blame) }
{
    let (_, element) = circuit.elements().as_slice().get_index(place).unwrap();
    blame(element, cause)
}

// The element with which a limit on the unknowns is passed.
fn blame_limit(circuit: &Circuit, fault: LayoutFault) -> Result<(), ReadyFault>
    requires no_own { own_blame circuit.now ≡ Ok tt }
    requires limit { LaysOut (Err fault) (laid_out circuit.now.elements) }
    ensures { IsAnswer circuit.now result }
{
    match fault {
        LayoutFault::TooMany(place) => {
            let blame = blame_place(circuit, place, ModelFault::TooMany)?;
            Err(ReadyFault::Blame(blame))
        }
        LayoutFault::NoMemory => Err(ReadyFault::NoMemory),
    }
}

// The first element with a node that isn't fed.
fn check_fed(alloc: Global, circuit: &Circuit, layout: &Layout) -> Result<(), ReadyFault>
    requires no_own { own_blame circuit.now ≡ Ok tt }
    requires layout { laid_out circuit.now.elements ≡ Ok layout.now }
    ensures { IsAnswer circuit.now result }
{
    match first_isolated(alloc, layout, circuit.elements())? {
        Some(place) => {
            let blame = blame_place(circuit, place, ModelFault::IsolatedNode)?;
            Err(ReadyFault::Blame(blame))
        }
        None => Ok(()),
    }
}

// The tests that look at all elements at once.
fn check_layout(alloc: Global, circuit: &Circuit) -> Result<(), ReadyFault>
    requires { own_blame circuit.now ≡ Ok tt }
    ensures { IsAnswer circuit.now result }
{
    match Layout::of(alloc, circuit.elements()) {
        Ok(layout) => check_fed(alloc, circuit, &layout),
        Err(fault) => blame_limit(circuit, fault),
    }
}

/// The tests that a Solve makes of its circuit, which look at the values of the script: whether it passes them, or the
/// first element that is to blame, and why.
///
/// Elements are looked at in order of definition, each for these causes in turn: a value out of range (the
/// short-circuit impedance of a source above 10^4 ohm, a step of a tap below 10^-5, the tap of a controlled winding
/// outside mintap to maxtap, a measured phase that isn't one, settings of a capacitor control the wrong way round), a
/// wrong count (nodes of a bus, a matrix that hasn't the line's phases, a bus or an element that is needed and not
/// given, a shape that a load names with too few values), something unsupported (a fourth node that isn't ground,
/// unequal powers of the windings, another frequency), a second control of a winding or a Capacitor, and a line
/// without an impedance. Then comes the first element that passes a limit on the unknowns, and then the first with a
/// node that no source feeds. Each is blamed at the place of its New (OpenDSS manual for the properties; this profile
/// for the tests).
pub fn ready(alloc: Global, circuit: &Circuit) -> Result<(), ReadyFault>
    ensures { IsAnswer circuit.now result }
{
    match find_own_blame(alloc, circuit) {
        Ok(()) => check_layout(alloc, circuit),
        Err(fault) => Err(fault),
    }
}
