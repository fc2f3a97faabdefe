// The buses that are reached from the sources.
ghost use Rattle.std.specs.Prelude.{◌≡◌, ◌<◌, ◌^◌, length, OnOk, IfOk};
ghost use Rattle.dss_layout.specs.dss_model.InRange.{ElementInRange};
ghost use Rattle.dss_circuit.specs.InRange.{AllInRange};
ghost use Rattle.fd_bases.specs.Walk.{reach, carried, joined, taken, pass, reached_in};
ghost use Rattle.fd_bases.specs.Due.{AreTouching, AreDue, taken_at};

use crate::due::{Due, all_due, next_due, wake};
use crate::nominal::{Nominal, source_nominal, winding_nominal};
use crate::touching::{Touching, touching_in};
use dss_layout::{Bus, Element, ElementName, Text};
use indexmap::IndexMap;
use std::alloc::{AllocError, Global};

/// Buses by name, in the order in which they are reached, each with its nominal voltage.
pub type Reached = IndexMap<Text, Nominal>;

// A bus that is reached already keeps its nominal voltage.
fn reach(reached: &mut Reached, bus: &Text, nominal: Nominal) -> Result<(), AllocError>
    ensures { OnOk result (reached.new.entries ≡ reach bus.now nominal reached.old.entries) }
{
    if !reached.contains_key(bus) {
        reached.insert(bus.clone()?, nominal)?;
    }
    Ok(())
}

// Bus `to` is reached where `from` is, with the nominal voltage of the element's own end there, else with that of
// `from`.
fn carry(
    reached: &mut Reached,
    from: &Text,
    to: &Text,
    own: Option<Nominal>,
) -> Result<(), AllocError>
    ensures { OnOk result (reached.new.entries ≡ carried from.now to.now own reached.old.entries) }
{
    match reached.get(from).copied() {
        Some(there) => reach(reached, to, own.unwrap_or(there)),
        None => Ok(()),
    }
}

// Of two buses one is reached where the other is.
fn join(
    reached: &mut Reached,
    first: &Option<Bus>,
    at_first: Option<Nominal>,
    second: &Option<Bus>,
    at_second: Option<Nominal>,
) -> Result<(), AllocError>
    ensures { OnOk result (reached.new.entries ≡ joined first.now at_first second.now at_second reached.old.entries) }
{
    let (Some(first), Some(second)) = (first, second) else {
        return Ok(());
    };
    carry(reached, &first.name, &second.name, at_second)?;
    carry(reached, &second.name, &first.name, at_first)
}

fn take(reached: &mut Reached, element: &Element) -> Result<(), AllocError>
    requires { ElementInRange element.now }
    ensures { OnOk result (reached.new.entries ≡ taken element.now reached.old.entries) }
{
    match element {
        Element::Vsource(v) => reach(reached, &v.bus1.name, source_nominal(v)),
        Element::Line(l) => join(reached, &l.bus1, None, &l.bus2, None),
        Element::Transformer(t) => join(
            reached,
            &t.first.bus,
            Some(winding_nominal(t.phases, &t.first)),
            &t.second.bus,
            Some(winding_nominal(t.phases, &t.second)),
        ),
        _ => Ok(()),
    }
}

fn take_at(
    reached: &mut Reached,
    elements: &IndexMap<ElementName, Element>,
    place: usize,
) -> Result<(), AllocError>
    requires { AllInRange elements.now.entries }
    ensures { OnOk result (reached.new.entries ≡ taken_at elements.now.entries place reached.old.entries) }
{
    match elements.get_index(place) {
        Some((_name, element)) => take(reached, element),
        None => Ok(()),
    }
}

// The element at a place is taken, and then isn't due; where a bus is new by it, the elements that touch the bus are.
fn take_due(
    reached: &mut Reached,
    due: &mut Due,
    touching: &Touching,
    elements: &IndexMap<ElementName, Element>,
    place: usize,
) -> Result<(), AllocError>
    requires in_range { AllInRange elements.now.entries }
    requires touching { AreTouching elements.now.entries touching.now.entries }
    requires due { AreDue elements.now.entries due.old reached.old.entries }
    ensures reached { OnOk result (reached.new.entries ≡ taken_at elements.now.entries place reached.old.entries) }
    ensures due { OnOk result (AreDue elements.now.entries due.new reached.new.entries) }
{
    let before = reached.len();
    take_at(reached, elements, place)?;
    due.remove(&place);
    match reached.get_index(before) {
        Some((bus, _nominal)) => wake(due, touching, bus),
        None => Ok(()),
    }
}

// All elements once, in order. Those that aren't due change nothing, and are passed over.
fn pass(
    reached: &mut Reached,
    due: &mut Due,
    touching: &Touching,
    elements: &IndexMap<ElementName, Element>,
) -> Result<(), AllocError>
    requires few { length elements.now.entries < 2 ^ 63 }
    requires in_range { AllInRange elements.now.entries }
    requires touching { AreTouching elements.now.entries touching.now.entries }
    requires due { AreDue elements.now.entries due.old reached.old.entries }
    ensures reached { OnOk result (reached.new.entries ≡ pass elements.now.entries reached.old.entries) }
    ensures due { OnOk result (AreDue elements.now.entries due.new reached.new.entries) }
{
    let mut from = 0;
    while let Some(place) = next_due(due, from) {
        take_due(reached, due, touching, elements, place)?;
        from = place + 1;
    }
    Ok(())
}

/// The buses that are reached from the sources: elements are taken in order, again and again, until no bus is new. Takes
/// a time that grows no faster than the number of elements times its logarithm.
pub fn reached_in(
    alloc: Global,
    elements: &IndexMap<ElementName, Element>,
) -> Result<Reached, AllocError>
    requires { AllInRange elements.now.entries }
    ensures { IfOk result (λ reached. reached.entries ≡ reached_in elements.now.entries) }
{
    let touching = touching_in(alloc, elements)?;
    let mut due = all_due(alloc, elements.len())?;
    let mut reached = IndexMap::new(alloc);
    for _pass in 0..elements.len() {
        if due.is_empty() {
            return Ok(reached);
        }
        pass(&mut reached, &mut due, &touching, elements)?;
    }
    Ok(reached)
}
