// The probes of a circuit's controls.
ghost use Rattle.std.specs.Prelude.{◌≡◌, ◌<◌, map, length, is_some, IsSome, IfOk, IfSome, Some, Option, option_copied};
ghost use Rattle.std.specs.List.{position};
ghost use Rattle.std.specs.Map.{lookup};
ghost use Rattle.fd_network.specs.dss_model.InRange.{CapControlInRange, RegControlInRange};
ghost use Rattle.fd_network.specs.dss_model.SameElement.{same_element};
ghost use Rattle.fd_network.specs.dss_layout.Layout.{layout_of, size_of};
ghost use Rattle.fd_network.specs.dss_circuit.Lookups.{element_given};
ghost use Rattle.fd_network.specs.dss_ready.Ready.{HasPassed};
ghost use Rattle.fd_sample.specs.Circuits.{AreNumbers, IsCapControlIn, IsCapProbeAt, IsCapProbeIn, IsLineFor, IsProbeOf, IsRegControlIn, IsRegProbeAt, IsRegProbeIn, IsXfmrFor, element_at, line_in, transformer_in, place_given as place_of};
ghost use Rattle.fd_sample.specs.Banks.{IsCapProbe};
ghost use Rattle.fd_sample.specs.Probes.{IsProbe};
ghost use Rattle.fd_sample.specs.Regulators.{IsRegProbe};

use crate::numbers::Numbers;
use crate::probe::{CapProbe, Probe, RegProbe};
use crate::scripted::{bank_probe, regulator_probe};
use fd_network::{
    CapControl, Circuit, Class, Element, ElementName, Layout, Line, RegControl, Text, Transformer,
};
use indexmap::IndexMap;
use std::alloc::{AllocError, Global};

/// The probe of the element at this place in order, in a circuit that passed the tests of Solve, with its layout and its
/// numbers: None exactly where the element is no control.
///
/// # Errors
/// `AllocError` where the memory is refused.
pub fn probe_at_place(
    alloc: Global,
    circuit: &Circuit,
    layout: &Layout,
    numbers: &Numbers,
    place: usize,
) -> Result<Option<Probe>, AllocError>
    requires ready { HasPassed circuit.now }
    requires layout { layout.now ≡ layout_of circuit.now.elements }
    requires numbers { AreNumbers circuit.now.elements numbers.now }
    requires place { place < length circuit.now.elements }
    ensures probe { IfOk result (IsProbeOf circuit.now.elements (element_at circuit.now.elements place)) }
    ensures places { IfOk result (λ o. IfSome o (IsProbe (size_of (layout_of circuit.now.elements)))) }
{
    let elements = circuit.elements();
    let element = element_in(elements, place);
    match element {
        Element::RegControl(control) => {
            let probe = regulator_probe_of(alloc, circuit, layout, numbers, control)?;
            Ok(Some(Probe::Regulator(probe)))
        }
        Element::CapControl(control) => {
            let probe = bank_probe_of(alloc, circuit, layout, numbers, control)?;
            Ok(Some(Probe::Bank(probe)))
        }
        _ => Ok(None),
    }
}

/// The probe of a regulator's control of a circuit that passed the tests of Solve, with its layout and its numbers.
///
/// # Errors
/// `AllocError` where the memory is refused.
pub fn regulator_probe_of(
    alloc: Global,
    circuit: &Circuit,
    layout: &Layout,
    numbers: &Numbers,
    control: &RegControl,
) -> Result<RegProbe, AllocError>
    requires ready { HasPassed circuit.now }
    requires layout { layout.now ≡ layout_of circuit.now.elements }
    requires numbers { AreNumbers circuit.now.elements numbers.now }
    requires control { IsRegControlIn circuit.now.elements control.now }
    ensures probe { IfOk result (IsRegProbeIn circuit.now.elements control.now) }
    ensures places { IfOk result (IsRegProbe (size_of (layout_of circuit.now.elements))) }
{
    let elements = circuit.elements();
    let place = device_place(elements, Class::Transformer, &control.transformer)?;
    let element = element_in(elements, place);
    let number = numbers.transformers_before(place);
    probe_at(alloc, layout, control, element, place, number)
}

// The probe of a regulator's control whose transformer stands at this place and has this number.
fn probe_at(
    alloc: Global,
    layout: &Layout,
    control: &RegControl,
    element: &Element,
    place: usize,
    number: u32,
) -> Result<RegProbe, AllocError>
    requires place { place < length layout.now.branches_before }
    requires control { RegControlInRange control.now }
    requires element { IsXfmrFor layout.now place control.now element.now }
    ensures probe { IfOk result (IsRegProbeAt layout.now place control.now element.now number) }
    ensures places { IfOk result (IsRegProbe (size_of layout.now)) }
{
    let at = layout.ends(alloc, place, element)?;
    let xfmr = as_transformer(element).unwrap();
    Ok(regulator_probe(control, xfmr, &at, number))
}

// The place of the element of a class that a control names, which is there.
fn device_place(
    elements: &IndexMap<ElementName, Element>,
    class: Class,
    given: &Option<Text>,
) -> Result<usize, AllocError>
    requires there { IsSome (element_given elements.now.entries class given.now) }
    ensures place { IfOk result (λ i. place_of elements.now.entries class given.now ≡ Some i) }
    ensures there { IfOk result (λ i. element_at elements.now.entries i ≡ element_given elements.now.entries class given.now) }
    ensures inside { IfOk result (λ i. i < length elements.now.entries) }
{
    let place = place_given(elements, class, given)?;
    Ok(place.unwrap())
}

// The element at a place.
fn element_in(elements: &IndexMap<ElementName, Element>, place: usize) -> &Element
    requires { place < length elements.now.entries }
    ensures { element_at elements.now.entries place ≡ Some result.now }
{
    let (_, element) = elements.as_slice().get_index(place).unwrap();
    element
}

/// The probe of a bank's control of a circuit that passed the tests of Solve, with its layout and its numbers.
///
/// # Errors
/// `AllocError` where the memory is refused.
pub fn bank_probe_of(
    alloc: Global,
    circuit: &Circuit,
    layout: &Layout,
    numbers: &Numbers,
    control: &CapControl,
) -> Result<CapProbe, AllocError>
    requires ready { HasPassed circuit.now }
    requires layout { layout.now ≡ layout_of circuit.now.elements }
    requires numbers { AreNumbers circuit.now.elements numbers.now }
    requires control { IsCapControlIn circuit.now.elements control.now }
    ensures probe { IfOk result (IsCapProbeIn circuit.now.elements control.now) }
    ensures places { IfOk result (IsCapProbe (size_of (layout_of circuit.now.elements))) }
{
    let elements = circuit.elements();
    let place = device_place(elements, Class::Line, &control.element)?;
    let bank = device_place(elements, Class::Capacitor, &control.capacitor)?;
    let element = element_in(elements, place);
    let number = numbers.banks_before(bank);
    bank_probe_at(alloc, layout, control, element, place, number)
}

// The probe of a bank's control whose line stands at this place, and whose bank has this number.
fn bank_probe_at(
    alloc: Global,
    layout: &Layout,
    control: &CapControl,
    element: &Element,
    place: usize,
    number: u32,
) -> Result<CapProbe, AllocError>
    requires place { place < length layout.now.branches_before }
    requires control { CapControlInRange control.now }
    requires element { IsLineFor layout.now place control.now element.now }
    ensures probe { IfOk result (IsCapProbeAt layout.now place control.now element.now number) }
    ensures places { IfOk result (IsCapProbe (size_of layout.now)) }
{
    let at = layout.ends(alloc, place, element)?;
    let line = as_line(element).unwrap();
    Ok(bank_probe(control, line, &at, number))
}

fn as_line(element: &Element) -> Option<&Line>
    ensures { option_copied result ≡ line_in element.now }
{
    match element {
        Element::Line(line) => Some(line),
        _ => None,
    }
}

fn as_transformer(element: &Element) -> Option<&Transformer>
    ensures { option_copied result ≡ transformer_in element.now }
{
    match element {
        Element::Transformer(xfmr) => Some(xfmr),
        _ => None,
    }
}

// The place of the element of a class that a property names.
fn place_given(
    elements: &IndexMap<ElementName, Element>,
    class: Class,
    given: &Option<Text>,
) -> Result<Option<usize>, AllocError>
    ensures place { IfOk result (λ o. o ≡ place_of elements.now.entries class given.now) }
    ensures there { IfOk result (λ o. IfSome o (λ i. element_at elements.now.entries i ≡ element_given elements.now.entries class given.now)) }
    ensures found { IfOk result (λ o. is_some o ≡ is_some (element_given elements.now.entries class given.now)) }
{
    match given {
        Some(given) => {
            let name = given.clone()?;
            Ok(index_of(elements, &ElementName { class, name }))
        }
        None => Ok(None),
    }
}

// The place of the element of a name.
fn index_of(elements: &IndexMap<ElementName, Element>, name: &ElementName) -> Option<usize>
    ensures place { result ≡ position (same_element name.now) (map (λ e. e.0) elements.now.entries) }
    ensures there { IfSome result (λ i. element_at elements.now.entries i ≡ lookup (same_element name.now) elements.now.entries) }
    ensures found { is_some result ≡ is_some (lookup (same_element name.now) elements.now.entries) }
{
    elements.get_index_of(name)
}
