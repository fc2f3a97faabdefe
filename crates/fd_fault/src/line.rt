// The line that a short circuit adds.
ghost use Rattle.std.specs.Prelude.{◌≡◌, IfOk};
ghost use Rattle.dss_ready.specs.dss_model.InRange.{LineInRange};
ghost use Rattle.fd_fault.specs.FaultCircuit.{fault_line, no_impedance, nowhere};

use crate::kind::Kind;
use dss_ready::{Bus, DataForm, Line, LineConstants, Nodes, ONE, Place, Text, Units};
use std::alloc::{AllocError, Global};

fn nowhere(alloc: Global) -> Place
    ensures { result ≡ nowhere }
{
    Place {
        file: Text::new(String::new(alloc)),
        line: 0,
    }
}

fn no_impedance() -> LineConstants
    ensures { result ≡ no_impedance }
{
    LineConstants {
        r1: Some(0),
        x1: Some(0),
        r0: Some(0),
        x0: Some(0),
        form: Some(DataForm::Sequence),
        ..LineConstants::fresh()
    }
}

fn bus_at(alloc: Global, bus: &Text, numbers: &[u8]) -> Result<Bus, AllocError>
    ensures { IfOk result (λ b. b ≡ record { name = bus.now; nodes = numbers.now }) }
{
    let mut nodes = Vec::new(alloc);
    nodes.extend_from_slice(numbers)?;
    Ok(Bus {
        name: bus.clone()?,
        nodes: Nodes::new(nodes),
    })
}

/// The line of zero impedance from these nodes of a bus to ground.
pub(crate) fn fault_line(alloc: Global, bus: &Text, kind: Kind) -> Result<Line, AllocError>
    ensures line { IfOk result (λ line. line ≡ fault_line bus.now kind) }
    ensures in_range { IfOk result LineInRange }
{
    Ok(Line {
        place: nowhere(alloc),
        bus1: Some(bus_at(alloc, bus, kind.nodes())?),
        bus2: Some(bus_at(alloc, bus, kind.grounds())?),
        phases: kind.phases(),
        linecode: None,
        length: ONE,
        units: Units::None,
        constants: no_impedance(),
        switch: false,
        basefreq: None,
        code_units: Units::None,
    })
}
