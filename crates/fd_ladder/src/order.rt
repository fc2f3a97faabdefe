// The order of a radial circuit, or the first element that offends.
ghost use Rattle.std.specs.Prelude.{◌≡◌, ◌<◌, ◌^◌, length, IfOk};
ghost use Rattle.fd_ladder.specs.Radial.{offends, first_offending_by, radial_of, Answers};

use crate::fault::LadderFault;
use crate::section::{feeds_own_nodes, sections_in, source_nodes};
use crate::walk::order_in;
use dss_circuit::Circuit;
use dss_layout::{Element, ElementName};
use indexmap::{IndexMap, IndexSet};
use std::alloc::{AllocError, Global};

fn offends(
    alloc: Global,
    order: &IndexSet<u32>,
    number: u32,
    element: &Element,
) -> Result<bool, AllocError>
    ensures { IfOk result (λ answer. answer ≡ offends order.now.keys number element.now) }
{
    match element {
        Element::Vsource(_) => {
            let feeds = feeds_own_nodes(alloc, element)?;
            Ok(!(number == 0 && feeds))
        }
        Element::Line(_) | Element::Transformer(_) => Ok(!order.contains(&number)),
        _ => Ok(false),
    }
}

// The number of the first element that offends, where this is the order.
fn first_offending(
    alloc: Global,
    order: &IndexSet<u32>,
    elements: &IndexMap<ElementName, Element>,
) -> Result<Option<u32>, AllocError>
    requires { length elements.now.entries < 2 ^ 32 }
    ensures { IfOk result (λ first. first ≡ first_offending_by order.now.keys elements.now.entries) }
{
    let entries = elements.as_slice();
    for place in 0..entries.len() {
        let (_, element) = entries.get_index(place).unwrap();
        if offends(alloc, order, place as u32, element)? {
            return Ok(Some(place as u32));
        }
    }
    Ok(None)
}

/// The order in which the Lines and Transformers of a radial circuit are taken, as numbers of elements in order of
/// definition, or the first element that offends (Kersting's ladder: forward from the source, backward to it).
///
/// At first the nodes of Vsource.source are reached. Lines and Transformers are looked at in order of definition, again
/// and again until none is taken; one that is taken counts at once for those behind it, and its nodes are reached from
/// then on. A Line is taken where all nodes of one end are reached, no node of the other end is, the nodes of the other
/// end are distinct and no node of the Line is ground. A Transformer is taken where all nodes of its first winding but
/// ground are reached, none of its second winding is but ground, and each phase of its second winding joins a node of
/// its own to ground.
///
/// `NotRadial` names the first element that offends, in order of definition: Vsource.source where one of its phases
/// enters ground or two of them enter one node, every other Vsource, and a Line or a Transformer that is never taken.
///
/// The circuit may be any: it needn't pass the tests of Solve, and there is no limit on its unknowns. An element whose
/// buses have a fault has no nodes.
pub fn radial(alloc: Global, circuit: &Circuit) -> Result<Vec<u32>, LadderFault>
    ensures { Answers result (radial_of circuit.now.elements) }
{
    let elements = circuit.elements();
    let sections = sections_in(alloc, elements)?;
    let source = source_nodes(alloc, elements)?;
    let order = order_in(alloc, &sections, source.as_slice())?;
    if let Some(number) = first_offending(alloc, &order, elements)? {
        return Err(LadderFault::NotRadial(number));
    }
    Ok(order.as_slice().to_vec(alloc)?)
}
