// The Lines and Transformers by their nodes, and from which side each may be taken.
ghost use Rattle.std.specs.Prelude.{◌≡◌, ◌<◌, ◌^◌, ◌++◌, length, filter, IfOk, OnOk};
ghost use Rattle.std.specs.List.{list_all};
ghost use Rattle.dss_layout.specs.Nodes.{is_node};
ghost use Rattle.dss_layout.specs.Terminals.{terminals_of};
ghost use Rattle.fd_ladder.specs.Sections.{are_distinct, are_own_nodes, has_one_ground, joins_ground, line_section, transformer_section, sections_at, sections_from, source_nodes};

use dss_layout::{
    Connection, Element, ElementName, NodeName, NodeNames, Terminals, Transformer, terminal_nodes,
};
use indexmap::IndexMap;
use std::alloc::{AllocError, Global};

/// A Line or a Transformer as the order of a radial circuit sees it.
#[derive(Drop)]
pub struct Section {
    /// Its number in order of definition.
    pub element: u32,
    /// The nodes of a Line's first end, or those of a Transformer's first winding but ground.
    pub first: NodeNames,
    /// The nodes of a Line's second end, or those of a Transformer's second winding but ground.
    pub second: NodeNames,
    /// Whether it may be taken where its first nodes are reached.
    pub from_first: bool,
    /// Whether it may be taken where its second nodes are reached.
    pub from_second: bool,
}

fn is_node(node: &NodeName) -> bool
    ensures { result ≡ is_node node.now }
{
    node.number != 0
}

fn are_nodes(nodes: &[NodeName]) -> bool
    ensures { result ≡ list_all is_node nodes.now }
{
    nodes.iter().all(|node| is_node(node))
}

// Whether no two of these nodes are the same.
fn are_distinct(nodes: &[NodeName]) -> bool
    ensures { result ≡ are_distinct nodes.now }
{
    match nodes {
        [] => true,
        [node, rest @ ..] => !rest.contains(node) && are_distinct(rest),
    }
}

// Whether each is a node of its own: none is ground, and no two are the same.
fn are_own_nodes(nodes: &[NodeName]) -> bool
    ensures { result ≡ are_own_nodes nodes.now }
{
    are_nodes(nodes) && are_distinct(nodes)
}

// Whether one of two nodes is ground, and the other isn't.
fn has_one_ground(nodes: &[NodeName]) -> bool
    ensures { result ≡ has_one_ground nodes.now }
{
    match nodes {
        [a, b] => is_node(a) != is_node(b),
        _ => false,
    }
}

// The nodes, without ground.
fn without_ground(alloc: Global, nodes: NodeNames) -> Result<NodeNames, AllocError>
    ensures { IfOk result (λ names. names ≡ filter is_node nodes) }
{
    let mut names = Vec::new(alloc);
    for node in nodes.into_vec() {
        if is_node(&node) {
            names.push(node)?;
        }
    }
    Ok(NodeNames::new(names))
}

// Whether each phase of a winding joins a node of its own to ground.
fn joins_ground(phases: u32, connection: Connection, nodes: &[NodeName]) -> bool
    ensures { result ≡ joins_ground phases connection nodes.now }
{
    if phases == 1 {
        return has_one_ground(nodes);
    }
    match connection {
        Connection::Wye => are_own_nodes(nodes),
        Connection::Delta => false,
    }
}

fn line_section(element: u32, ends: Terminals) -> Section
    ensures { result ≡ line_section element ends }
{
    let (first, second) = (ends.first.as_slice(), ends.second.as_slice());
    let from_first = are_nodes(first) && are_own_nodes(second);
    let from_second = are_nodes(second) && are_own_nodes(first);
    Section {
        element,
        first: ends.first,
        second: ends.second,
        from_first,
        from_second,
    }
}

fn transformer_section(
    alloc: Global,
    element: u32,
    transformer: &Transformer,
    ends: Terminals,
) -> Result<Section, AllocError>
    ensures { IfOk result (λ section. section ≡ transformer_section element transformer.now ends) }
{
    let from_first = joins_ground(
        transformer.phases,
        transformer.second.conn,
        ends.second.as_slice(),
    );
    Ok(Section {
        element,
        first: without_ground(alloc, ends.first)?,
        second: without_ground(alloc, ends.second)?,
        from_first,
        from_second: false,
    })
}

fn push_section(
    alloc: Global,
    sections: &mut Vec<Section>,
    number: u32,
    element: &Element,
) -> Result<(), AllocError>
    ensures { OnOk result (sections.new.items ≡ sections.old.items ++ sections_at number element.now) }
{
    match element {
        Element::Line(_) => {
            let ends = terminal_nodes(alloc, element)?;
            sections.push(line_section(number, ends))?;
            Ok(())
        }
        Element::Transformer(t) => {
            let ends = terminal_nodes(alloc, element)?;
            let section = transformer_section(alloc, number, t, ends)?;
            sections.push(section)?;
            Ok(())
        }
        _ => Ok(()),
    }
}

/// The Lines and Transformers, in order of definition.
pub fn sections_in(
    alloc: Global,
    elements: &IndexMap<ElementName, Element>,
) -> Result<Vec<Section>, AllocError>
    requires { length elements.now.entries < 2 ^ 32 }
    ensures { IfOk result (λ sections. sections.items ≡ sections_from 0 elements.now.entries) }
{
    let mut sections = Vec::new(alloc);
    let entries = elements.as_slice();
    for place in 0..entries.len() {
        let (_, element) = entries.get_index(place).unwrap();
        push_section(alloc, &mut sections, place as u32, element)?;
    }
    Ok(sections)
}

/// Whether a source feeds nodes of its own, and none of its phases enters ground.
pub fn feeds_own_nodes(alloc: Global, source: &Element) -> Result<bool, AllocError>
    ensures { IfOk result (λ feeds. feeds ≡ are_own_nodes (terminals_of source.now).first) }
{
    let ends = terminal_nodes(alloc, source)?;
    Ok(are_own_nodes(ends.first.as_slice()))
}

/// The nodes of the source with which a circuit begins, without ground.
pub fn source_nodes(
    alloc: Global,
    elements: &IndexMap<ElementName, Element>,
) -> Result<NodeNames, AllocError>
    ensures { IfOk result (λ nodes. nodes ≡ source_nodes elements.now.entries) }
{
    match elements.get_index(0) {
        Some((_, source)) => {
            let ends = terminal_nodes(alloc, source)?;
            without_ground(alloc, ends.first)
        }
        None => Ok(NodeNames::new(Vec::new(alloc))),
    }
}
