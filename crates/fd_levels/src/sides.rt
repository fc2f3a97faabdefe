// The nodes of an element at its two buses, and which elements are taken from the second.
ghost use Rattle.std.specs.Prelude.{◌≡◌, length, filter, not, set, slice_get, IfOk, OnOk};
ghost use Rattle.std.specs.List.{list_all};
ghost use Rattle.fd_ladder.specs.Radial.{is_reached, order_of, reach, reach_all};
ghost use Rattle.fd_ladder.specs.Sections.{source_nodes};
ghost use Rattle.fd_ladder.specs.dss_layout.Nodes.{is_node};
ghost use Rattle.fd_levels.specs.Feeds.{first_nodes, is_turned, second_nodes, turned_from, turned_in, with_nodes};

use fd_ladder::{Element, ElementName, Items, NodeName, terminal_nodes};
use indexmap::{IndexMap, IndexSet};
use std::alloc::{AllocError, Global};

/// The nodes of an element at its first and at its second bus, without ground.
#[derive(Drop)]
pub struct Sides {
    pub first: Items<NodeName>,
    pub second: Items<NodeName>,
}

fn without_ground(alloc: Global, nodes: Items<NodeName>) -> Result<Items<NodeName>, AllocError>
    ensures { IfOk result (λ names. names ≡ filter is_node nodes) }
{
    let mut names = Vec::new(alloc);
    for node in nodes.into_vec() {
        if node.number != 0 {
            names.push(node)?;
        }
    }
    Ok(Items::new(names))
}

/// The nodes of an element at its two buses, without ground.
pub fn sides_of(alloc: Global, element: &Element) -> Result<Sides, AllocError>
    ensures first { IfOk result (λ sides. sides.first ≡ first_nodes element.now) }
    ensures second { IfOk result (λ sides. sides.second ≡ second_nodes element.now) }
{
    let ends = terminal_nodes(alloc, element)?;
    Ok(Sides {
        first: without_ground(alloc, ends.first)?,
        second: without_ground(alloc, ends.second)?,
    })
}

fn reach(reached: &mut IndexSet<NodeName>, node: &NodeName) -> Result<(), AllocError>
    ensures { OnOk result (reached.new.keys ≡ reach reached.old.keys node.now) }
{
    if !reached.contains(node) {
        reached.insert(node.clone()?)?;
    }
    Ok(())
}

fn reach_all(reached: &mut IndexSet<NodeName>, nodes: &[NodeName]) -> Result<(), AllocError>
    ensures { OnOk result (reached.new.keys ≡ reach_all reached.old.keys nodes.now) }
{
    for node in nodes {
        reach(reached, node)?;
    }
    Ok(())
}

fn are_all_reached(reached: &IndexSet<NodeName>, nodes: &[NodeName]) -> bool
    ensures { result ≡ list_all (is_reached reached.now.keys) nodes.now }
{
    nodes.iter().all(|node| reached.contains(node))
}

// The nodes of an element are reached; whether it was taken from its second bus.
fn take(
    alloc: Global,
    reached: &mut IndexSet<NodeName>,
    element: &Element,
) -> Result<bool, AllocError>
    ensures turned { IfOk result (λ turned. turned ≡ not (list_all (is_reached reached.old.keys) (first_nodes element.now))) }
    ensures reached { OnOk result (reached.new.keys ≡ reach_all (reach_all reached.old.keys (first_nodes element.now)) (second_nodes element.now)) }
{
    let sides = sides_of(alloc, element)?;
    let turned = !are_all_reached(reached, sides.first.as_slice());
    reach_all(reached, sides.first.as_slice())?;
    reach_all(reached, sides.second.as_slice())?;
    Ok(turned)
}

// The element at this place is taken, if there is one; whether it was taken from its second bus.
fn take_at(
    alloc: Global,
    elements: &IndexMap<ElementName, Element>,
    reached: &mut IndexSet<NodeName>,
    place: usize,
) -> Result<bool, AllocError>
    ensures turned { IfOk result (λ turned. turned ≡ is_turned reached.old.keys (slice_get elements.now.entries place)) }
    ensures reached { OnOk result (reached.new.keys ≡ with_nodes reached.old.keys (slice_get elements.now.entries place)) }
{
    match elements.as_slice().get_index(place) {
        Some((_, element)) => take(alloc, reached, element),
        None => Ok(false),
    }
}

fn set_at(turned: &mut [bool], place: usize, is_turned: bool)
    ensures { turned.new ≡ set turned.old place is_turned }
{
    if place < turned.len() {
        turned[place] = is_turned;
    }
}

// The element of this number is taken.
fn take_number(
    alloc: Global,
    elements: &IndexMap<ElementName, Element>,
    reached: &mut IndexSet<NodeName>,
    turned: &mut [bool],
    number: u32,
) -> Result<(), AllocError>
    ensures turned { OnOk result (turned.new ≡ set turned.old number (is_turned reached.old.keys (slice_get elements.now.entries number))) }
    ensures reached { OnOk result (reached.new.keys ≡ with_nodes reached.old.keys (slice_get elements.now.entries number)) }
{
    let is_turned = take_at(alloc, elements, reached, number as usize)?;
    set_at(turned, number as usize, is_turned);
    Ok(())
}

// The nodes of the source are reached.
fn reach_source(
    alloc: Global,
    elements: &IndexMap<ElementName, Element>,
    reached: &mut IndexSet<NodeName>,
) -> Result<(), AllocError>
    ensures { OnOk result (reached.new.keys ≡ reach_all reached.old.keys (source_nodes elements.now.entries)) }
{
    match elements.get_index(0) {
        Some((_, source)) => {
            let sides = sides_of(alloc, source)?;
            reach_all(reached, sides.first.as_slice())
        }
        None => Ok(()),
    }
}

/// For each element, by number, whether it is taken from its second bus, where this is the order of taking.
pub fn turned_in(
    alloc: Global,
    elements: &IndexMap<ElementName, Element>,
    order: &[u32],
) -> Result<Vec<bool>, AllocError>
    requires { order.now ≡ order_of elements.now.entries }
    ensures { IfOk result (λ turned. turned.items ≡ turned_in elements.now.entries) }
{
    let mut reached = IndexSet::new(alloc);
    reach_source(alloc, elements, &mut reached)?;
    let mut turned = Vec::from_elem(alloc, false, elements.len())?;
    for number in order {
        take_number(alloc, elements, &mut reached, &mut turned, *number)?;
    }
    Ok(turned)
}
