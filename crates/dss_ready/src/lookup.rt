// Elements by name.
ghost use Rattle.std.specs.Prelude.{◌≡◌, IfOk, option_copied};
ghost use Rattle.dss_circuit.specs.Lookups.{element_given};
ghost use Rattle.dss_ready.specs.Lookups.{phases_given};

use dss_circuit::{Class, Element, ElementName, Text, find_element};
use indexmap::IndexMap;
use std::alloc::AllocError;

/// Elements by name, in order of definition.
pub type Elements = IndexMap<ElementName, Element>;

/// The element of a class that a property names, where it is given and there.
pub fn find_given<'a>(
    elements: &'a Elements,
    class: Class,
    given: &Option<Text>,
) -> Result<Option<&'a Element>, AllocError>
    ensures { IfOk result (λ found. option_copied found ≡ element_given elements.now.entries class given.now) }
{
    match given {
        Some(given) => {
            let name = given.clone()?;
            Ok(find_element(elements, &ElementName { class, name }))
        }
        None => Ok(None),
    }
}

/// The phases that a control can measure.
pub fn phases_to_measure(found: Option<&Element>) -> Option<u32>
    ensures { result ≡ phases_given (option_copied found.entry) }
{
    match found? {
        Element::Transformer(transformer) => Some(transformer.phases),
        Element::Line(line) => Some(line.phases),
        _ => None,
    }
}
