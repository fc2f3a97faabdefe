// The order in which the sections are taken.
ghost use Rattle.std.specs.Prelude.{◌≡◌, ◌<◌, length, slice_get, OnOk, IfOk};
ghost use Rattle.std.specs.List.{list_all, list_any};
ghost use Rattle.fd_ladder.specs.Radial.{is_reached, reach, reach_all, leads, can_be_taken, pass, reach_at, reach_of};
ghost use Rattle.fd_ladder.specs.Due.{AreNoted, AreDue, Wakes, taken_where};

use crate::due::{Due, all_due, next_due, wake};
use crate::section::Section;
use crate::touching::{Touching, touching_in};
use dss_layout::{NodeName, NodeNames};
use indexmap::IndexSet;
use std::alloc::{AllocError, Global};

// A node is reached; where it is new, the sections that join it are due.
fn reach(
    nodes: &mut IndexSet<NodeName>,
    due: &mut Due,
    touching: &Touching,
    node: &NodeName,
) -> Result<(), AllocError>
    ensures nodes { OnOk result (nodes.new.keys ≡ reach nodes.old.keys node.now) }
    ensures due { OnOk result (Wakes touching.now.entries nodes.old.keys nodes.new.keys due.old due.new) }
{
    if nodes.contains(node) {
        return Ok(());
    }
    nodes.insert(node.clone()?)?;
    wake(due, touching, node)
}

fn reach_all(
    nodes: &mut IndexSet<NodeName>,
    due: &mut Due,
    touching: &Touching,
    names: &[NodeName],
) -> Result<(), AllocError>
    ensures nodes { OnOk result (nodes.new.keys ≡ reach_all nodes.old.keys names.now) }
    ensures due { OnOk result (Wakes touching.now.entries nodes.old.keys nodes.new.keys due.old due.new) }
{
    for node in names {
        reach(nodes, due, touching, node)?;
    }
    Ok(())
}

fn are_all_reached(nodes: &IndexSet<NodeName>, names: &[NodeName]) -> bool
    ensures { result ≡ list_all (is_reached nodes.now.keys) names.now }
{
    names.iter().all(|name| nodes.contains(name))
}

fn is_any_reached(nodes: &IndexSet<NodeName>, names: &[NodeName]) -> bool
    ensures { result ≡ list_any (is_reached nodes.now.keys) names.now }
{
    names.iter().any(|name| nodes.contains(name))
}

// Whether all nodes of the one side are reached, and none of the other.
fn leads(nodes: &IndexSet<NodeName>, inner: &NodeNames, outer: &NodeNames) -> bool
    ensures { result ≡ leads nodes.now.keys inner.now outer.now }
{
    are_all_reached(nodes, inner.as_slice()) && !is_any_reached(nodes, outer.as_slice())
}

fn can_be_taken(nodes: &IndexSet<NodeName>, section: &Section) -> bool
    ensures { result ≡ can_be_taken nodes.now.keys section.now }
{
    (section.from_first && leads(nodes, &section.first, &section.second))
        || (section.from_second && leads(nodes, &section.second, &section.first))
}

// The section at a place is looked at, and then isn't due; where it is taken, those that join its new nodes are.
fn take_due(
    nodes: &mut IndexSet<NodeName>,
    order: &mut IndexSet<u32>,
    due: &mut Due,
    touching: &Touching,
    sections: &[Section],
    place: usize,
) -> Result<(), AllocError>
    requires place_in { place < length sections.now }
    requires touching { AreNoted sections.now touching.now.entries }
    requires due { AreDue sections.now due.old (reach_at nodes.old.keys order.old.keys) }
    ensures taken { OnOk result (taken_where (slice_get sections.now place) (reach_at nodes.old.keys order.old.keys) ≡ reach_at nodes.new.keys order.new.keys) }
    ensures due { OnOk result (AreDue sections.now due.new (reach_at nodes.new.keys order.new.keys)) }
{
    let section = &sections[place];
    due.remove(&place);
    if order.contains(&section.element) || !can_be_taken(nodes, section) {
        return Ok(());
    }
    order.insert(section.element)?;
    reach_all(nodes, due, touching, section.first.as_slice())?;
    reach_all(nodes, due, touching, section.second.as_slice())
}

// All sections are looked at once, in order. Those that aren't due can't be taken, and are passed over.
fn pass(
    nodes: &mut IndexSet<NodeName>,
    order: &mut IndexSet<u32>,
    due: &mut Due,
    touching: &Touching,
    sections: &[Section],
) -> Result<(), AllocError>
    requires touching { AreNoted sections.now touching.now.entries }
    requires due { AreDue sections.now due.old (reach_at nodes.old.keys order.old.keys) }
    ensures taken { OnOk result (pass sections.now (reach_at nodes.old.keys order.old.keys) ≡ reach_at nodes.new.keys order.new.keys) }
    ensures due { OnOk result (AreDue sections.now due.new (reach_at nodes.new.keys order.new.keys)) }
{
    let mut from = 0;
    while let Some(place) = next_due(due, from) {
        if place >= sections.len() {
            return Ok(());
        }
        take_due(nodes, order, due, touching, sections, place)?;
        from = place + 1;
    }
    Ok(())
}

/// The numbers of the elements that are taken, in order: sections are looked at again and again until none is taken.
pub fn order_in(
    alloc: Global,
    sections: &[Section],
    source: &[NodeName],
) -> Result<IndexSet<u32>, AllocError>
    ensures { IfOk result (λ order. order.keys ≡ (reach_of sections.now source.now).order) }
{
    let touching = touching_in(alloc, sections)?;
    let mut due = all_due(alloc, sections.len())?;
    let mut nodes = IndexSet::new(alloc);
    let mut order = IndexSet::new(alloc);
    reach_all(&mut nodes, &mut due, &touching, source)?;
    for _pass in 0..sections.len() {
        if due.is_empty() {
            return Ok(order);
        }
        pass(&mut nodes, &mut order, &mut due, &touching, sections)?;
    }
    Ok(order)
}
