// One command.
ghost use Rattle.std.specs.Prelude.{◌<◌, ◌^◌, ◌-◌, length};
ghost use Rattle.dss_circuit.specs.dss_model.Changes.{Becomes};
ghost use Rattle.dss_circuit.specs.Limits.{most_elements};
ghost use Rattle.dss_commands.specs.Commands.{applied};

use crate::elements::{edit_element, is_begun, make_element};
use crate::keys::{check_circuit, key_to_edit, key_to_make};
use crate::options::{set, solve};
use dss_circuit::{Circuit, Command, ModelError, Verb};
use std::alloc::Global;

/// Does one command: it is one step of the fold. After a refusal the circuit is as before, and the refusal is the
/// first in this order: the class and the name are written as such, the class, the circuit, the element, then the
/// pairs from left to right. A Solve sets its pairs as options and is counted, and does no more.
pub fn apply(alloc: Global, circuit: &mut Circuit, command: &Command) -> Result<(), ModelError>
    requires solves { circuit.old.solves < 2 ^ 32 - 1 }
    requires room { length circuit.old.elements < most_elements }
    ensures { Becomes circuit.old circuit.new result (applied command.now circuit.old) }
{
    match &command.verb {
        Verb::New { class, name, pairs } => {
            let key = key_to_make(alloc, class, name, is_begun(circuit))?;
            make_element(alloc, circuit, &command.place, key, pairs.as_slice())
        }
        Verb::Edit { class, name, pairs } => {
            let key = key_to_edit(alloc, class, name, is_begun(circuit))?;
            edit_element(alloc, circuit, key, pairs.as_slice())
        }
        Verb::Set { pairs } => set(alloc, circuit, pairs.as_slice()),
        Verb::Solve { pairs } => solve(alloc, circuit, pairs.as_slice()),
        Verb::Clear => {
            circuit.clear(alloc);
            Ok(())
        }
        Verb::Bases => Ok(check_circuit(is_begun(circuit))?),
    }
}
