// The sections that join each node.
ghost use Rattle.std.specs.Prelude.{◌≡◌, OnOk, IfOk};
ghost use Rattle.std.specs.List.{list_any};
ghost use Rattle.dss_layout.specs.Nodes.{same_node};
ghost use Rattle.fd_ladder.specs.Due.{Notes, AreNoted, joins};

use crate::section::Section;
use dss_layout::NodeName;
use indexmap::IndexMap;
use std::alloc::{AllocError, Global};

/// For each node the places, in order of definition, of the sections that join it.
pub type Touching = IndexMap<NodeName, Vec<usize>>;

// This place is noted at a node.
fn note(
    alloc: Global,
    touching: &mut Touching,
    node: &NodeName,
    place: usize,
) -> Result<(), AllocError>
    ensures { OnOk result (Notes (λ other. same_node other node.now) place touching.old.entries touching.new.entries) }
{
    if let Some(places) = touching.get_mut(node) {
        places.push(place)?;
        return Ok(());
    }
    let mut places = Vec::new(alloc);
    places.push(place)?;
    touching.insert(node.clone()?, places)?;
    Ok(())
}

// This place is noted at each of these nodes.
fn note_all(
    alloc: Global,
    touching: &mut Touching,
    nodes: &[NodeName],
    place: usize,
) -> Result<(), AllocError>
    ensures { OnOk result (Notes (λ other. list_any (same_node other) nodes.now) place touching.old.entries touching.new.entries) }
{
    for node in nodes {
        note(alloc, touching, node, place)?;
    }
    Ok(())
}

fn note_section(
    alloc: Global,
    touching: &mut Touching,
    section: &Section,
    place: usize,
) -> Result<(), AllocError>
    ensures { OnOk result (Notes (joins section.now) place touching.old.entries touching.new.entries) }
{
    note_all(alloc, touching, section.first.as_slice(), place)?;
    note_all(alloc, touching, section.second.as_slice(), place)
}

/// The places of the sections that join each node.
pub fn touching_in(alloc: Global, sections: &[Section]) -> Result<Touching, AllocError>
    ensures { IfOk result (λ touching. AreNoted sections.now touching.entries) }
{
    let mut touching = IndexMap::new(alloc);
    for place in 0..sections.len() {
        note_section(alloc, &mut touching, &sections[place], place)?;
    }
    Ok(touching)
}
