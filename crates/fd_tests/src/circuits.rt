// Small circuits, made of the commands of a script.
ghost use Rattle.std.specs.Prelude.{IsTrue};
ghost use Rattle.fd_network.specs.dss_ready.Ready.{HasPassed};

use dss_commands::Circuit;
use dss_script::{Command, LineError, ModelError, ModelFault, PairList, Place, Text, Verb, pairs};
use fd_network::ready;
use std::alloc::Global;

/// The class, the name and the pairs of a New.
pub type Row<'a> = (&'a str, &'a str, &'a str);

// Makes an element; its New stands in this line.
fn make(alloc: Global, circuit: &mut Circuit, line: u32, row: &Row) -> Result<(), ModelError> {
    let (class, name, values) = *row;
    let verb = Verb::New {
        class: text(alloc, class)?,
        name: text(alloc, name)?,
        pairs: pair_list(alloc, values)?,
    };
    apply(alloc, circuit, line, verb)
}

/// The circuit of these elements, of which the first has its New in line 1.
pub(crate) fn circuit(alloc: Global, rows: &[Row]) -> Result<Circuit, ModelError> {
    let mut circuit = Circuit::empty(alloc);
    for (line, row) in (1..1000).zip(rows) {
        make(alloc, &mut circuit, line, row)?;
    }
    Ok(circuit)
}

/// Whether a circuit passes the tests of Solve.
pub fn is_ready(alloc: Global, circuit: &Circuit) -> bool
    ensures passed { IsTrue result → HasPassed circuit.now }
{
    ready(alloc, circuit).is_ok()
}

fn text(alloc: Global, of: &str) -> Result<Text, ModelError> {
    Ok(Text::new(String::from_str(alloc, of)?))
}

fn pair_list(alloc: Global, of: &str) -> Result<PairList, ModelError> {
    match pairs(alloc, of.as_bytes()) {
        Ok(pairs) => Ok(PairList::new(pairs)),
        Err(LineError::Fault(_)) => Err(ModelError::Fault(ModelFault::BadValue)),
        Err(LineError::NoMemory) => Err(ModelError::NoMemory),
    }
}

// Does a command that stands in this line, where the circuit is small.
fn apply(alloc: Global, circuit: &mut Circuit, line: u32, verb: Verb) -> Result<(), ModelError> {
    let place = Place {
        file: text(alloc, "m.dss")?,
        line,
    };
    if circuit.solves() > 100 || circuit.elements().len() > 100 {
        return Err(ModelError::Fault(ModelFault::TooMany));
    }
    dss_commands::apply(alloc, circuit, &Command { place, verb })
}
