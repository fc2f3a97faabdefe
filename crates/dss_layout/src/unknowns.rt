// The unknowns of a circuit while elements are added one by one.
ghost use Rattle.std.specs.Prelude.{◌≡◌, ◌++◌, ◌||◌, nat_lt, [], false, filter, IfOk, OnOk};
ghost use Rattle.dss_layout.specs.Limits.{most_complex, most_magnitudes};
ghost use Rattle.dss_layout.specs.Nodes.{new_nodes, is_node};
ghost use Rattle.dss_layout.specs.Terminals.{mentions};
ghost use Rattle.dss_layout.specs.Layout.{layout_of, added, passes_limit, phase_names, branch_phases, magnitude_phases};

use crate::limits::{MOST_COMPLEX, MOST_MAGNITUDES};
use crate::terminals::terminal_nodes;
use crate::{NodeName, NodeNames, PhaseName};
use dss_model::{Element, ElementName};
use indexmap::IndexSet;
use std::alloc::{AllocError, Global};
use std::marker::Model;

/// The unknowns of the elements so far.
#[derive(Drop)]
pub struct Unknowns {
    pub nodes: IndexSet<NodeName>,
    pub branches: Vec<PhaseName>,
    pub magnitudes: Vec<PhaseName>,
    pub branches_before: Vec<u16>,
    pub magnitudes_before: Vec<u16>,
}

impl Model for Unknowns {
    ghost use Rattle.dss_layout.specs.Terminals.{mentions};
    ghost use Rattle.dss_layout.specs.Layout.{LayoutView};

    ghost Value = { LayoutView };

    ghost view = { λ u. record {
      nodes = u.nodes.keys;
      branches = u.branches.items;
      magnitudes = u.magnitudes.items;
      branches_before = u.branches_before.items;
      magnitudes_before = u.magnitudes_before.items;
    } };
}

/// The phases of an element of which each has a branch current.
pub fn branches_of(element: &Element) -> u32
    ensures { result ≡ branch_phases element.now }
{
    match element {
        Element::Vsource(v) => v.phases,
        Element::Line(l) => l.phases,
        Element::Transformer(t) => t.phases,
        _ => 0,
    }
}

/// The phases of an element of which each has a magnitude: those of a load with a part of constant
/// current.
pub fn magnitudes_of(element: &Element) -> u32
    ensures { result ≡ magnitude_phases element.now }
{
    match element {
        Element::Load(l) if l.model.has_magnitude() => l.phases,
        _ => 0,
    }
}

// Notes the nodes that were not mentioned before, in order.
fn note_names(nodes: &mut IndexSet<NodeName>, names: NodeNames) -> Result<(), AllocError>
    ensures { OnOk result (nodes.new.keys ≡ nodes.old.keys ++ new_nodes nodes.old.keys (filter is_node names)) }
{
    for name in names.into_vec() {
        if name.number != 0 {
            nodes.insert(name)?;
        }
    }
    Ok(())
}

// Notes the nodes that an element is the first to mention.
fn note(alloc: Global, nodes: &mut IndexSet<NodeName>, element: &Element) -> Result<(), AllocError>
    ensures { OnOk result (nodes.new.keys ≡ nodes.old.keys ++ new_nodes nodes.old.keys (mentions element.now)) }
{
    let terminals = terminal_nodes(alloc, element)?;
    note_names(nodes, terminals.first)?;
    note_names(nodes, terminals.second)?;
    Ok(())
}

// Whether so many complex unknowns or magnitudes are too many.
fn are_too_many(complex: usize, magnitudes: usize) -> bool
    ensures { result ≡ (nat_lt most_complex complex || nat_lt most_magnitudes magnitudes) }
{
    complex > MOST_COMPLEX || magnitudes > MOST_MAGNITUDES
}

fn copied_name(name: &ElementName) -> Result<ElementName, AllocError>
    ensures { IfOk result (λ copy. copy ≡ name.now) }
{
    name.clone()
}

fn push_phases(
    names: &mut Vec<PhaseName>,
    element: &ElementName,
    phases: u32,
) -> Result<(), AllocError>
    ensures { OnOk result (names.new.items ≡ names.old.items ++ phase_names element.now phases) }
{
    for before in 0..phases {
        names.push(PhaseName {
            element: copied_name(element)?,
            phase: before + 1,
        })?;
    }
    Ok(())
}

impl Unknowns {
    /// No unknowns.
    pub fn new(alloc: Global) -> Self
        ensures { result ≡ layout_of [] }
    {
        Unknowns {
            nodes: IndexSet::new(alloc),
            branches: Vec::new(alloc),
            magnitudes: Vec::new(alloc),
            branches_before: Vec::new(alloc),
            magnitudes_before: Vec::new(alloc),
        }
    }

    /// Adds an element, or says that a limit is passed with it, and then the unknowns are thrown away.
    pub fn add(
        &mut self,
        alloc: Global,
        name: &ElementName,
        element: &Element,
    ) -> Result<bool, AllocError>
        requires { passes_limit self.old ≡ false }
        ensures passes { IfOk result (λ passes. passes ≡ passes_limit (added self.old name.now element.now)) }
        ensures added { IfOk result (λ passes. passes ≡ false → self.new ≡ added self.old name.now element.now) }
    {
        note(alloc, &mut self.nodes, element)?;
        let (branches, magnitudes) = (branches_of(element), magnitudes_of(element));
        let complex = self.nodes.len() + self.branches.len() + branches as usize;
        if are_too_many(complex, self.magnitudes.len() + magnitudes as usize) {
            return Ok(true);
        }
        self.branches_before.push(self.branches.len() as u16)?;
        self.magnitudes_before.push(self.magnitudes.len() as u16)?;
        push_phases(&mut self.branches, name, branches)?;
        push_phases(&mut self.magnitudes, name, magnitudes)?;
        Ok(false)
    }
}
