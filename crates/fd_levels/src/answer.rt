// The order in which the unknowns of a radial circuit are eliminated.
ghost use Rattle.std.specs.Prelude.{◌≡◌, ◌++◌, IfOk, OnOk};
ghost use Rattle.fd_ladder.specs.Radial.{order_of};
ghost use Rattle.fd_ladder.specs.dss_layout.Layout.{layout_of};
ghost use Rattle.fd_levels.specs.Order.{Orders, magnitude_pairs, ordered, pairs_of};

use crate::buses::buses_of;
use crate::fault::OrderFault;
use crate::feed::feeds_in;
use crate::group::push_levels;
use crate::levels::levels_in;
use crate::once::is_paired;
use crate::sides::turned_in;
use fd_ladder::{Circuit, Element, ElementName, LadderFault, Layout, radial};
use fd_triangles::Pair;
use indexmap::IndexMap;
use std::alloc::{AllocError, Global};

// Each magnitude with its own row.
fn magnitude_pairs(alloc: Global, layout: &Layout) -> Result<Vec<Pair>, AllocError>
    ensures { IfOk result (λ pairs. pairs.items ≡ magnitude_pairs layout.now) }
{
    let first = 2 * (layout.nodes().len() + layout.branches().len());
    let mut pairs = Vec::new(alloc);
    for before in 0..layout.magnitudes().len() {
        pairs.push(Pair {
            unknown: first + before,
            equation: first + before,
        })?;
    }
    Ok(pairs)
}

// All pairs of a circuit whose Lines and Transformers are taken in this order.
fn pairs_in(
    alloc: Global,
    layout: &Layout,
    elements: &IndexMap<ElementName, Element>,
    taken: &[u32],
) -> Result<Vec<Pair>, AllocError>
    requires layout { layout.now ≡ layout_of elements.now.entries }
    requires taken { taken.now ≡ order_of elements.now.entries }
    ensures { IfOk result (λ pairs. pairs.items ≡ pairs_of elements.now.entries) }
{
    let buses = buses_of(alloc, layout.nodes())?;
    let turned = turned_in(alloc, elements, taken)?;
    let feeds = feeds_in(alloc, layout, &buses, elements, &turned)?;
    let levels = levels_in(alloc, buses.len(), &feeds)?;
    let mut pairs = magnitude_pairs(alloc, layout)?;
    push_levels(alloc, &mut pairs, buses.len() + 1, &levels, &feeds)?;
    Ok(pairs)
}

/// The order in which the unknowns of a radial circuit are eliminated, each with its equation, by places in the layout.
///
/// First come magnitudes, each with its own row, in order of places; then the levels of buses, from the deepest to
/// level 0. Of a level come all branch currents, each phase with the current law of its far node, then all far nodes,
/// each with the voltage equation of its phase: elements in order of definition, their phases in order, the real part
/// before the imaginary one. The far nodes are those of a Line or a Transformer that were reached last, and those of a
/// source. The level of a bus is the least number of Lines and Transformers from the bus of the source to it; one
/// without near nodes begins at level 0.
///
/// # Errors
/// `NotRadial` names the element that `radial` of `fd_ladder` names. `Unpaired`: in that order not each unknown and each
/// equation comes once, as where a node isn't fed. `NoMemory` where memory is refused.
pub fn order(alloc: Global, circuit: &Circuit, layout: &Layout) -> Result<Vec<Pair>, OrderFault>
    requires { layout.now ≡ layout_of circuit.now.elements }
    ensures { Orders result (ordered circuit.now.elements) }
{
    let taken = match radial(alloc, circuit) {
        Ok(taken) => taken,
        Err(LadderFault::NotRadial(number)) => return Err(OrderFault::NotRadial(number)),
        Err(LadderFault::NoMemory) => return Err(OrderFault::NoMemory),
    };
    let pairs = pairs_in(alloc, layout, circuit.elements(), &taken)?;
    if !is_paired(alloc, layout.size() as usize, &pairs)? {
        return Err(OrderFault::Unpaired);
    }
    Ok(pairs)
}
