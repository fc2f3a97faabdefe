// Elements by name, in order of definition.
ghost use Rattle.std.specs.Prelude.{◌≡◌, ◌≢◌, ◌==◌, ◌≤◌, ◌+◌, [], false, length, not, IfErr, IfOk, OnOk, option_copied};
ghost use Rattle.std.specs.Map.{lookup};
ghost use Rattle.indexmap.specs.IndexMap.{insert_entry};
ghost use Rattle.dss_model.specs.declared.names.Class.TheVariants as class;
ghost use Rattle.dss_model.specs.Element.{class_of};
ghost use Rattle.dss_model.specs.InRange.{ElementInRange};
ghost use Rattle.dss_model.specs.SameElement.{class_number, same_element};
ghost use Rattle.dss_circuit.specs.Circuit.{has_circuit, source_name};
ghost use Rattle.dss_circuit.specs.InRange.{AllInRange};
ghost use Rattle.dss_circuit.specs.WellFormed.{AreWellFormed, IsKey, NamesAreThere};
ghost use Rattle.dss_circuit.specs.Without.{OthersNameNone, without};

use dss_model::{Class, Element, ElementName};
use indexmap::IndexMap;
use std::alloc::{AllocError, Global};

/// Elements by name, in order of definition.
pub type Elements = IndexMap<ElementName, Element>;

/// No elements. It takes no memory.
pub fn no_elements(alloc: Global) -> Elements
    ensures none { result.entries ≡ [] }
    ensures well_formed { AreWellFormed result.entries }
{
    IndexMap::new(alloc)
}

/// The element of this name, where it is there.
pub fn find_element<'a>(elements: &'a Elements, name: &ElementName) -> Option<&'a Element>
    ensures { option_copied result ≡ lookup (same_element name.now) elements.now.entries }
{
    elements.get(name)
}

/// An element takes the place of the one of its name, or stands last. After an `Err` the elements are as before.
pub fn insert_element(
    elements: &mut Elements,
    name: ElementName,
    element: Element,
) -> Result<(), AllocError>
    requires in_range { AllInRange elements.old.entries }
    requires well_formed { AreWellFormed elements.old.entries }
    requires element_in_range { ElementInRange element }
    requires key { IsKey name }
    requires class { name.class ≡ class_of element }
    requires source { has_circuit elements.old.entries ≡ false → name ≡ source_name }
    requires named { NamesAreThere elements.old.entries element }
    ensures inserted { OnOk result (elements.new.entries ≡ insert_entry same_element elements.old.entries name element) }
    ensures as_before { IfErr result (λ _. elements.new.entries ≡ elements.old.entries) }
    ensures few { length elements.new.entries ≤ length elements.old.entries + 1 }
    ensures in_range { AllInRange elements.new.entries }
    ensures well_formed { AreWellFormed elements.new.entries }
{
    drop(elements.insert(name, element)?);
    Ok(())
}

// A copy of an element takes the place of the one of its name, or stands last.
fn add_copy(into: &mut Elements, name: &ElementName, element: &Element) -> Result<(), AllocError>
    ensures { OnOk result (into.new.entries ≡ insert_entry same_element into.old.entries name.now element.now) }
{
    let name = name.clone()?;
    let element = element.copied()?;
    drop(into.insert(name, element)?);
    Ok(())
}

/// The same elements, in the same order.
pub fn copied_elements(alloc: Global, elements: &Elements) -> Result<Elements, AllocError>
    requires { AreWellFormed elements.now.entries }
    ensures { IfOk result (λ copy. copy.entries ≡ elements.now.entries) }
{
    let mut copy = no_elements(alloc);
    for (name, element) in elements {
        add_copy(&mut copy, name, element)?;
    }
    Ok(copy)
}

fn is_of_another(name: &ElementName, dropped: Class) -> bool
    ensures { result ≡ not (class_number name.now.class == class_number dropped) }
{
    name.class != dropped
}

/// Takes the elements of one class out. The rest keep their order. It takes no memory.
pub fn drop_elements(elements: &mut Elements, dropped: Class)
    requires in_range { AllInRange elements.old.entries }
    requires well_formed { AreWellFormed elements.old.entries }
    requires source { dropped ≢ class.Vsource }
    requires named { OthersNameNone dropped elements.old.entries }
    ensures rest { elements.new.entries ≡ without dropped elements.old.entries }
    ensures few { length elements.new.entries ≤ length elements.old.entries }
    ensures in_range { AllInRange elements.new.entries }
    ensures well_formed { AreWellFormed elements.new.entries }
{
    elements.retain(
        |name: &ElementName, element: &mut Element| -> bool
            ensures { (result ≡ not (class_number name.now.class == class_number dropped)) × (element.new ≡ element.old) }
        { is_of_another(name, dropped) },
    );
}
