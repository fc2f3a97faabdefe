// Which nodes a source feeds.
ghost use Rattle.std.specs.Prelude.{◌≡◌, ◌==◌, ◌<◌, ◌≤◌, ◌+◌, ◌++◌, [], ◌∷◌, length, filter, vec_len, if◌then◌else◌, IfOk, OnOk};
ghost use Rattle.std.specs.List.{flat_map, range_with_len};
ghost use Rattle.dss_layout.specs.Nodes.{is_node};
ghost use Rattle.dss_layout.specs.Terminals.{mentions};
ghost use Rattle.dss_layout.specs.Layout.{layout_of};
ghost use Rattle.dss_ready.specs.Feeding.{phase_ends, FirstIsolated};
ghost use Rattle.dss_ready.specs.Labels.{joined, joined_all, pairs_with, group_pairs, element_pairs, all_pairs, labels_of, mentions_apart};

use dss_circuit::{Element, ElementName};
use dss_layout::{Layout, NodeName, NodeNames, Terminals, terminal_nodes};
use indexmap::IndexMap;
use std::alloc::{AllocError, Global};

// The nodes, without ground.
fn push_nodes(names: &mut Vec<NodeName>, nodes: NodeNames) -> Result<(), AllocError>
    ensures { OnOk result (names.new.items ≡ names.old.items ++ filter is_node nodes) }
{
    for node in nodes.into_vec() {
        if node.number != 0 {
            names.push(node)?;
        }
    }
    Ok(())
}

fn mentioned(alloc: Global, element: &Element) -> Result<Vec<NodeName>, AllocError>
    ensures { IfOk result (λ names. names.items ≡ mentions element.now) }
{
    let terminals = terminal_nodes(alloc, element)?;
    let mut names = Vec::new(alloc);
    push_nodes(&mut names, terminals.first)?;
    push_nodes(&mut names, terminals.second)?;
    Ok(names)
}

fn relabelled(label: usize, gone: usize, kept: usize) -> usize
    ensures { result ≡ (if label == gone then kept else label) }
{
    if label == gone { kept } else { label }
}

// The places with the label of the second take that of the first.
fn join(labels: &mut [usize], first: usize, second: usize)
    requires first_in { first < length labels.old }
    requires second_in { second < length labels.old }
    ensures { labels.new ≡ joined labels.old (first, second) }
{
    let (kept, gone) = (labels[first], labels[second]);
    for label in labels.iter_mut() {
        *label = relabelled(*label, gone, kept);
    }
}

fn join_each(layout: &Layout, labels: &mut [usize], place: usize, names: &[NodeName])
    requires labelled { length labels.old ≡ length layout.now.nodes + 1 }
    requires place_in { place ≤ length layout.now.nodes }
    ensures { labels.new ≡ joined_all labels.old (pairs_with layout.now.nodes place names.now) }
{
    for name in names {
        join(labels, place, layout.number_of(name));
    }
}

fn join_group(layout: &Layout, labels: &mut [usize], names: &[NodeName])
    requires { length labels.old ≡ length layout.now.nodes + 1 }
    ensures { labels.new ≡ joined_all labels.old (group_pairs layout.now.nodes names.now) }
{
    if let [first, rest @ ..] = names {
        join_each(layout, labels, layout.number_of(first), rest);
    }
}

fn join_phase(layout: &Layout, labels: &mut [usize], first: &NodeName, second: &NodeName)
    requires { length labels.old ≡ length layout.now.nodes + 1 }
    ensures { labels.new ≡ joined_all labels.old (group_pairs layout.now.nodes (filter is_node (first.now ∷ second.now ∷ []))) }
{
    if first.number != 0 && second.number != 0 {
        join(labels, layout.number_of(first), layout.number_of(second));
    }
}

fn join_phases(layout: &Layout, labels: &mut [usize], terminals: &Terminals)
    requires { length labels.old ≡ length layout.now.nodes + 1 }
    ensures { labels.new ≡ joined_all labels.old (flat_map (group_pairs layout.now.nodes) (phase_ends terminals.now)) }
{
    let (first, second) = (terminals.first.as_slice(), terminals.second.as_slice());
    for phase in 0..first.len().min(second.len()) {
        join_phase(layout, labels, &first[phase], &second[phase]);
    }
}

fn join_element(
    alloc: Global,
    layout: &Layout,
    labels: &mut [usize],
    element: &Element,
) -> Result<(), AllocError>
    requires { length labels.old ≡ length layout.now.nodes + 1 }
    ensures { OnOk result (labels.new ≡ joined_all labels.old (element_pairs layout.now.nodes element.now)) }
{
    match element {
        Element::Vsource(_) => {
            let names = mentioned(alloc, element)?;
            join_each(layout, labels, layout.nodes().len(), &names);
            Ok(())
        }
        Element::Line(_) => {
            let terminals = terminal_nodes(alloc, element)?;
            join_phases(layout, labels, &terminals);
            Ok(())
        }
        Element::Transformer(_) => {
            let names = mentioned(alloc, element)?;
            join_group(layout, labels, &names);
            Ok(())
        }
        _ => Ok(()),
    }
}

fn own(alloc: Global, count: usize) -> Result<Vec<usize>, AllocError>
    ensures labels { IfOk result (λ labels. labels.items ≡ range_with_len 0 count) }
    ensures count { IfOk result (λ labels. vec_len labels ≡ count) }
{
    let mut labels = Vec::new(alloc);
    for place in 0..count {
        labels.push(place)?;
    }
    Ok(labels)
}

fn join_elements(
    alloc: Global,
    layout: &Layout,
    labels: &mut [usize],
    elements: &IndexMap<ElementName, Element>,
) -> Result<(), AllocError>
    requires { length labels.old ≡ length layout.now.nodes + 1 }
    ensures { OnOk result (labels.new ≡ joined_all labels.old (all_pairs layout.now.nodes elements.now.entries)) }
{
    let entries = elements.as_slice();
    for place in 0..entries.len() {
        let (_, element) = entries.get_index(place).unwrap();
        join_element(alloc, layout, labels, element)?;
    }
    Ok(())
}

fn labels(
    alloc: Global,
    layout: &Layout,
    elements: &IndexMap<ElementName, Element>,
) -> Result<Vec<usize>, AllocError>
    ensures labels { IfOk result (λ labels. labels.items ≡ labels_of layout.now.nodes elements.now.entries) }
    ensures count { IfOk result (λ labels. vec_len labels ≡ length layout.now.nodes + 1) }
{
    let mut labels = own(alloc, layout.nodes().len() + 1)?;
    join_elements(alloc, layout, labels.as_mut_slice(), elements)?;
    Ok(labels)
}

// Whether an element mentions a node that has another label than the sources.
fn is_apart(
    alloc: Global,
    layout: &Layout,
    labels: &[usize],
    element: &Element,
) -> Result<bool, AllocError>
    requires { length labels.now ≡ length layout.now.nodes + 1 }
    ensures { IfOk result (λ apart. apart ≡ mentions_apart layout.now.nodes labels.now element.now) }
{
    let fed = labels[layout.nodes().len()];
    let names = mentioned(alloc, element)?;
    for name in &names {
        if labels[layout.number_of(name)] != fed {
            return Ok(true);
        }
    }
    Ok(false)
}

/// The place in order of the first element that mentions a node that isn't fed, or none where there is none. The nodes
/// of every source are fed; where one end of a line's phase is fed, so is the other; where any node of a transformer
/// but ground is fed, all are.
pub fn first_isolated(
    alloc: Global,
    layout: &Layout,
    elements: &IndexMap<ElementName, Element>,
) -> Result<Option<usize>, AllocError>
    requires { layout.now ≡ layout_of elements.now.entries }
    ensures { IfOk result (FirstIsolated elements.now.entries) }
{
    let labels = labels(alloc, layout, elements)?;
    let entries = elements.as_slice();
    for place in 0..entries.len() {
        let (_, element) = entries.get_index(place).unwrap();
        if is_apart(alloc, layout, &labels, element)? {
            return Ok(Some(place));
        }
    }
    Ok(None)
}
