// Elements made and edited.
ghost use Rattle.std.specs.Prelude.{◌≡◌, ◌<◌, false, length, IfOk, IfSome, OnOk, option_copied};
ghost use Rattle.dss_circuit.specs.dss_model.Answers.{Gives, Makes};
ghost use Rattle.dss_circuit.specs.dss_model.Changes.{Becomes};
ghost use Rattle.dss_circuit.specs.dss_model.Element.{class_of};
ghost use Rattle.dss_circuit.specs.dss_model.InRange.{ElementInRange};
ghost use Rattle.dss_circuit.specs.Circuit.{has_circuit, source_name};
ghost use Rattle.dss_circuit.specs.InRange.{AllInRange};
ghost use Rattle.dss_circuit.specs.Limits.{most_elements};
ghost use Rattle.dss_circuit.specs.WellFormed.{IsKey, NamesAreThere};
ghost use Rattle.dss_commands.specs.Commands.{referred, with_pairs, put, make, edit};

use dss_circuit::{
    Circuit, Class, Element, ElementName, Elements, ModelError, ModelFault, Pair, Place,
    find_element,
};
use dss_profile::{referred_element, set_pair};
use std::alloc::{AllocError, Global};

/// Whether New Circuit was done since the start or the last Clear.
pub fn is_begun(circuit: &Circuit) -> bool
    ensures { result ≡ has_circuit circuit.now.elements }
{
    !circuit.elements().is_empty()
}

// The same place.
fn copied_place(place: &Place) -> Result<Place, AllocError>
    ensures { IfOk result (λ copy. copy ≡ place.now) }
{
    place.clone()
}

// The element that a pair names, where it is there.
fn find_referred<'a>(
    alloc: Global,
    elements: &'a Elements,
    class: Class,
    pair: &Pair,
) -> Result<Option<&'a Element>, ModelError>
    requires in_range { AllInRange elements.now.entries }
    ensures found { Gives (λ found. option_copied found) result (referred elements.now.entries class pair.now) }
    ensures in_range { IfOk result (λ found. IfSome (option_copied found) ElementInRange) }
{
    match referred_element(alloc, class, pair)? {
        Some(name) => Ok(find_element(elements, &name)),
        None => Ok(None),
    }
}

// Sets the pairs from left to right. After an `Err` the draft is thrown away.
fn set_pairs(
    alloc: Global,
    solves: u32,
    elements: &Elements,
    class: Class,
    draft: &mut Element,
    pairs: &[Pair],
) -> Result<(), ModelError>
    requires in_range { AllInRange elements.now.entries }
    requires draft_in_range { ElementInRange draft.old }
    ensures set { Makes draft.new result (with_pairs solves elements.now.entries class pairs.now draft.old) }
    ensures in_range { OnOk result (ElementInRange draft.new) }
{
    for pair in pairs {
        let found = find_referred(alloc, elements, class, pair)?;
        set_pair(alloc, draft, pair, solves, found)?;
    }
    Ok(())
}

// Sets the pairs of a draft, an element of a circuit. After an `Err` it is thrown away.
fn set_draft(
    alloc: Global,
    circuit: &Circuit,
    class: Class,
    draft: &mut Element,
    pairs: &[Pair],
) -> Result<(), ModelError>
    requires draft_in_range { ElementInRange draft.old }
    requires class { class ≡ class_of draft.old }
    requires named { NamesAreThere circuit.now.elements draft.old }
    ensures set { Makes draft.new result (with_pairs circuit.now.solves circuit.now.elements class pairs.now draft.old) }
    ensures in_range { OnOk result (ElementInRange draft.new) }
    ensures class { OnOk result (class ≡ class_of draft.new) }
    ensures named { OnOk result (NamesAreThere circuit.now.elements draft.new) }
{
    set_pairs(
        alloc,
        circuit.solves(),
        circuit.elements(),
        class,
        draft,
        pairs,
    )
}

// An element with these pairs takes the place of the one of its name, or stands last.
#[tactic(auto, unfolding(crate::specs::Commands::put))]
fn put_element(
    alloc: Global,
    circuit: &mut Circuit,
    name: ElementName,
    element: Element,
    pairs: &[Pair],
) -> Result<(), ModelError>
    requires room { length circuit.old.elements < most_elements }
    requires in_range { ElementInRange element }
    requires key { IsKey name }
    requires class { name.class ≡ class_of element }
    requires source { has_circuit circuit.old.elements ≡ false → name ≡ source_name }
    requires named { NamesAreThere circuit.old.elements element }
    ensures { Becomes circuit.old circuit.new result (put name element pairs.now circuit.old) }
{
    let mut draft = element;
    match set_draft(alloc, circuit, name.class, &mut draft, pairs) {
        Ok(()) => Ok(circuit.put(name, draft)?),
        Err(error) => {
            drop(draft);
            Err(error)
        }
    }
}

/// A new element with its defaults and these pairs.
#[tactic(auto, unfolding(crate::specs::Commands::make))]
pub fn make_element(
    alloc: Global,
    circuit: &mut Circuit,
    place: &Place,
    name: ElementName,
    pairs: &[Pair],
) -> Result<(), ModelError>
    requires room { length circuit.old.elements < most_elements }
    requires key { IsKey name }
    requires source { has_circuit circuit.old.elements ≡ false → name ≡ source_name }
    ensures { Becomes circuit.old circuit.new result (make place.now name pairs.now circuit.old) }
{
    if find_element(circuit.elements(), &name).is_some() {
        return Err(ModelError::Fault(ModelFault::Duplicate));
    }
    let element = Element::fresh(alloc, name.class, copied_place(place)?, circuit.solves())?;
    put_element(alloc, circuit, name, element, pairs)
}

/// Sets these pairs of an element that is there.
#[tactic(auto, unfolding(crate::specs::Commands::edit))]
pub fn edit_element(
    alloc: Global,
    circuit: &mut Circuit,
    name: ElementName,
    pairs: &[Pair],
) -> Result<(), ModelError>
    requires room { length circuit.old.elements < most_elements }
    requires key { IsKey name }
    ensures { Becomes circuit.old circuit.new result (edit name pairs.now circuit.old) }
{
    let draft = match find_element(circuit.elements(), &name) {
        Some(element) => element.copied()?,
        None => return Err(ModelError::Fault(ModelFault::UnknownName)),
    };
    put_element(alloc, circuit, name, draft, pairs)
}
