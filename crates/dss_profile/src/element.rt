// Elements of all classes: the elements that their pairs name, and the pairs that set them.
ghost use Rattle.std.specs.Prelude.{◌≡◌, IfSome, OnOk, is_some};
ghost use Rattle.std.specs.Option.{option_copied};
ghost use Rattle.dss_values.specs.dss_model.Answers.{Gives};
ghost use Rattle.dss_values.specs.dss_model.Changes.{Becomes};
ghost use Rattle.dss_values.specs.dss_model.Names.{named};
ghost use Rattle.dss_values.specs.dss_model.InRange.{ElementInRange};
ghost use Rattle.dss_profile.specs.Element.{code_found, with_named, with_pair, references, named_in, reference_to, reference};

use crate::capacitor::{capacitor_property, set_capacitor};
use crate::capcontrol::{capcontrol_property, set_capcontrol};
use crate::line::{line_property, set_line};
use crate::linecode::{linecode_property, set_linecode};
use crate::load::{load_property, set_load};
use crate::loadshape::{loadshape_property, set_loadshape};
use crate::regcontrol::{regcontrol_property, set_regcontrol};
use crate::transformer::{set_transformer, transformer_property};
use crate::vsource::{set_vsource, vsource_property};
use dss_values::{
    Class, Element, ElementName, Linecode, ModelError, ModelFault, Pair, Text, find_named,
    line_name, name,
};
use std::alloc::Global;

// The class of the element that a property names, where it names any.
fn referred_class(class: Class, property: &str) -> Option<Class>
    ensures { result ≡ named (references class) property.now }
{
    match class {
        Class::Line => find_named(&[("linecode", Class::Linecode)], property),
        Class::Load => find_named(&[("daily", Class::Loadshape)], property),
        Class::RegControl => find_named(&[("transformer", Class::Transformer)], property),
        Class::CapControl => find_named(
            &[("element", Class::Line), ("capacitor", Class::Capacitor)],
            property,
        ),
        Class::Vsource
        | Class::Linecode
        | Class::Transformer
        | Class::Capacitor
        | Class::Loadshape => None,
    }
}

// The name of an element of a class: a Line is named with its class before it.
fn referred_name(alloc: Global, class: Class, pair: &Pair) -> Result<Text, ModelError>
    ensures { Gives (λ text. text) result (named_in class pair.now) }
{
    match class {
        Class::Line => line_name(alloc, pair),
        _ => name(alloc, pair),
    }
}

fn refer(
    alloc: Global,
    class: Option<Class>,
    pair: &Pair,
) -> Result<Option<ElementName>, ModelError>
    ensures { Gives (λ named. named) result (reference_to class pair.now) }
{
    match class {
        Some(class) => Ok(Some(ElementName {
            class,
            name: referred_name(alloc, class, pair)?,
        })),
        None => Ok(None),
    }
}

/// The element that a pair names for an element of a class, where its property names any. Errors: BadValue where the
/// value isn't a name, NoMemory.
#[tactic(auto, unfolding(crate::specs::Element::reference))]
pub fn referred_element(
    alloc: Global,
    class: Class,
    pair: &Pair,
) -> Result<Option<ElementName>, ModelError>
    ensures { Gives (λ named. named) result (reference class pair.now) }
{
    let property = pair.name.lowered(alloc)?;
    let class = referred_class(class, property.as_str());
    refer(alloc, class, pair)
}

fn code_in(found: Option<&Element>) -> Option<&Linecode>
    ensures { option_copied result ≡ code_found (option_copied found.entry) }
{
    match found {
        Some(Element::Linecode(code)) => Some(code),
        _ => None,
    }
}

// The property of this name, in lower case, takes the value.
#[tactic(auto, unfolding(crate::specs::Element::with_named))]
fn set_named(
    alloc: Global,
    element: &mut Element,
    name: &str,
    pair: &Pair,
    solves: u32,
    found: Option<&Element>,
) -> Result<(), ModelError>
    ensures { Becomes element.old element.new result (with_named solves (option_copied found.entry) name.now pair.now element.old) }
{
    let there = found.is_some();
    match element {
        Element::Vsource(source) => {
            let property = vsource_property(name).ok_or(ModelFault::UnknownProperty)?;
            set_vsource(alloc, source, property, pair)
        }
        Element::Linecode(code) => {
            let property = linecode_property(name).ok_or(ModelFault::UnknownProperty)?;
            set_linecode(alloc, code, property, pair)
        }
        Element::Line(line) => {
            let property = line_property(name).ok_or(ModelFault::UnknownProperty)?;
            set_line(alloc, line, property, pair, code_in(found))
        }
        Element::Transformer(transformer) => {
            let property = transformer_property(name).ok_or(ModelFault::UnknownProperty)?;
            set_transformer(alloc, transformer, property, pair, solves)
        }
        Element::Capacitor(bank) => {
            let property = capacitor_property(name).ok_or(ModelFault::UnknownProperty)?;
            set_capacitor(alloc, bank, property, pair, solves)
        }
        Element::Load(load) => {
            let property = load_property(name).ok_or(ModelFault::UnknownProperty)?;
            set_load(alloc, load, property, pair, there)
        }
        Element::RegControl(control) => {
            let property = regcontrol_property(name).ok_or(ModelFault::UnknownProperty)?;
            set_regcontrol(alloc, control, property, pair, there)
        }
        Element::CapControl(control) => {
            let property = capcontrol_property(name).ok_or(ModelFault::UnknownProperty)?;
            set_capcontrol(alloc, control, property, pair, there)
        }
        Element::Loadshape(shape) => {
            let property = loadshape_property(name).ok_or(ModelFault::UnknownProperty)?;
            set_loadshape(alloc, shape, property, pair)
        }
    }
}

/// Sets the property that a pair names. After an `Err` it is as before.
///
/// `solves` is the number of Solves that were applied so far, and `found` is the element that `referred_element`
/// names for this pair, where it is there. Errors: each cause for which the pair is refused, the first in the order
/// of the forms of values; Unsupported for a word without a name, UnknownProperty, and NoMemory. The values stay in
/// range.
#[tactic(auto, unfolding(crate::specs::Element::with_pair))]
pub fn set_pair(
    alloc: Global,
    element: &mut Element,
    pair: &Pair,
    solves: u32,
    found: Option<&Element>,
) -> Result<(), ModelError>
    ensures value { Becomes element.old element.new result (with_pair solves (option_copied found.entry) pair.now element.old) }
    ensures in_range { IfSome (option_copied found.entry) ElementInRange → ElementInRange element.old →
        OnOk result (ElementInRange element.new) }
{
    if pair.name.is_empty() {
        return Err(ModelError::Fault(ModelFault::Unsupported));
    }
    let name = pair.name.lowered(alloc)?;
    set_named(alloc, element, name.as_str(), pair, solves, found)
}
