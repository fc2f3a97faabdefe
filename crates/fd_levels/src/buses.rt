// Buses by number, in order of first mention.
ghost use Rattle.std.specs.Prelude.{◌≡◌, IfOk};
ghost use Rattle.fd_levels.specs.Feeds.{bus_in, buses_of};

use fd_ladder::{NodeName, Text};
use indexmap::IndexSet;
use std::alloc::{AllocError, Global};

/// The buses of a circuit's nodes, in order of first mention.
pub fn buses_of(alloc: Global, nodes: &[NodeName]) -> Result<IndexSet<Text>, AllocError>
    ensures { IfOk result (λ buses. buses.keys ≡ buses_of nodes.now) }
{
    let mut buses = IndexSet::new(alloc);
    for node in nodes {
        buses.insert(node.bus.clone()?)?;
    }
    Ok(buses)
}

/// The number of the bus of these nodes; the number of all buses where there are no nodes.
pub fn bus_in(buses: &IndexSet<Text>, nodes: &[NodeName]) -> usize
    ensures { result ≡ bus_in buses.now.keys nodes.now }
{
    let Some(node) = nodes.first() else {
        return buses.len();
    };
    match buses.get_index_of(&node.bus) {
        Some(index) => index,
        None => buses.len(),
    }
}
