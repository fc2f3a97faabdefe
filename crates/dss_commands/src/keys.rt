// The element that a command is about.
ghost use Rattle.std.specs.Prelude.{◌≡◌, IfOk, codes, nat_eq};
ghost use Rattle.std.specs.Cmp.Lexicographic.{pointwise};
ghost use Rattle.dss_circuit.specs.dss_model.Answers.{Gives};
ghost use Rattle.dss_circuit.specs.Circuit.{source_name};
ghost use Rattle.dss_commands.specs.Keys.{written, needed, element_key, edit_key, made_key, new_key};

use dss_circuit::{Class, ElementName, ModelError, ModelFault, Text, class_named, is_legal_name};
use std::alloc::{AllocError, Global};

// The source that New Circuit makes.
fn source_key(alloc: Global) -> Result<ElementName, AllocError>
    ensures { IfOk result (λ key. key ≡ source_name) }
{
    Ok(ElementName {
        class: Class::Vsource,
        name: Text::of(alloc, &['s', 'o', 'u', 'r', 'c', 'e'])?,
    })
}

fn is_circuit(class: &str) -> bool
    ensures { result ≡ pointwise nat_eq class.now (codes "circuit") }
{
    class == "circuit"
}

// Whether a class and a name are written as such.
fn check_written(alloc: Global, class: &Text, name: &Text) -> Result<(), ModelError>
    ensures { Gives (λ done. done) result (written class.now name.now) }
{
    if class.is_empty() {
        return Err(ModelError::Fault(ModelFault::BadValue));
    }
    let characters = name.characters(alloc)?;
    if is_legal_name(&characters) {
        Ok(())
    } else {
        Err(ModelError::Fault(ModelFault::BadValue))
    }
}

/// Refuses a command that wants a circuit where there is none.
pub fn check_circuit(has_circuit: bool) -> Result<(), ModelFault>
    ensures { result ≡ needed has_circuit }
{
    if has_circuit {
        Ok(())
    } else {
        Err(ModelFault::NoCircuit)
    }
}

// The key of a class, in lower case, and a name.
fn find_key(
    alloc: Global,
    class: &str,
    name: &Text,
    has_circuit: bool,
) -> Result<ElementName, ModelError>
    ensures { Gives (λ key. key) result (element_key class.now name.now has_circuit) }
{
    let class = class_named(class).ok_or(ModelFault::UnknownClass)?;
    check_circuit(has_circuit)?;
    Ok(ElementName {
        class,
        name: name.lowered(alloc)?,
    })
}

/// The key of the element that an Edit names.
pub fn key_to_edit(
    alloc: Global,
    class: &Text,
    name: &Text,
    has_circuit: bool,
) -> Result<ElementName, ModelError>
    ensures { Gives (λ key. key) result (edit_key class.now name.now has_circuit) }
{
    check_written(alloc, class, name)?;
    let class = class.lowered(alloc)?;
    find_key(alloc, class.as_str(), name, has_circuit)
}

fn find_new_key(
    alloc: Global,
    class: &str,
    name: &Text,
    has_circuit: bool,
) -> Result<ElementName, ModelError>
    ensures { Gives (λ key. key) result (made_key class.now name.now has_circuit) }
{
    if is_circuit(class) {
        return Ok(source_key(alloc)?);
    }
    find_key(alloc, class, name, has_circuit)
}

/// The key of the element that a New makes.
pub fn key_to_make(
    alloc: Global,
    class: &Text,
    name: &Text,
    has_circuit: bool,
) -> Result<ElementName, ModelError>
    ensures { Gives (λ key. key) result (new_key class.now name.now has_circuit) }
{
    check_written(alloc, class, name)?;
    let class = class.lowered(alloc)?;
    find_new_key(alloc, class.as_str(), name, has_circuit)
}
