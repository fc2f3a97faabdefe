// The layout of a circuit's unknowns.
ghost use Rattle.std.specs.Prelude.{◌≡◌, ◌<◌, ◌≤◌, IfOk, length, map};
ghost use Rattle.dss_layout.specs.Limits.{most_complex};
ghost use Rattle.dss_layout.specs.Nodes.{node_at, number_in};
ghost use Rattle.dss_layout.specs.Layout.{LaysOut, laid_out, size_of, ends_of, first_branch, first_magnitude};

use crate::terminals::terminal_nodes;
use crate::unknowns::{Unknowns, branches_of};
use crate::{LayoutFault, NodeName, NodeNames, PhaseName};
use dss_model::{Element, ElementName, Ends, NodeAt, NodesAt};
use indexmap::IndexMap;
use std::alloc::{AllocError, Global};
use std::marker::Model;

/// The unknowns of a circuit in order: nodes in order of first mention, then branch phases, then magnitudes. Complex
/// unknown k has its real part at place 2 k and its imaginary part at place 2 k + 1; the places of magnitudes follow.
/// There are at most 480 nodes and branch phases and at most 96 magnitudes.
#[derive(Drop)]
pub struct Layout {
    unknowns: Unknowns,
}

impl Model for Layout {
    ghost use Rattle.std.specs.Prelude.{◌≡◌, false};
    ghost use Rattle.dss_layout.specs.Layout.{LayoutView, passes_limit};

    ghost Value = { LayoutView };

    ghost view = { λ l. l.unknowns };

    ghost invariant = { λ l. passes_limit l.unknowns ≡ false };
}

impl Layout {
    /// The layout of these elements, in order of definition, or the first element with which a limit is passed.
    pub fn of(
        alloc: Global,
        elements: &IndexMap<ElementName, Element>,
    ) -> Result<Layout, LayoutFault>
        ensures { LaysOut result (laid_out elements.now.entries) }
    {
        let mut unknowns = Unknowns::new(alloc);
        let entries = elements.as_slice();
        for place in 0..entries.len() {
            let (name, element) = entries.get_index(place).unwrap();
            if unknowns.add(alloc, name, element)? {
                return Err(LayoutFault::TooMany(place));
            }
        }
        Ok(Layout { unknowns })
    }

    /// The number of real unknowns, at most 1,056.
    pub fn size(&self) -> u32
        ensures { result ≡ size_of self.now }
    {
        let complex = self.unknowns.nodes.len() + self.unknowns.branches.len();
        (2 * complex + self.unknowns.magnitudes.len()) as u32
    }

    /// The nodes, in order of first mention.
    pub fn nodes(&self) -> &[NodeName]
        ensures { result.now ≡ self.now.nodes }
    {
        self.unknowns.nodes.as_slice()
    }

    /// The branch phases, in order.
    pub fn branches(&self) -> &[PhaseName]
        ensures { result.now ≡ self.now.branches }
    {
        self.unknowns.branches.as_slice()
    }

    /// The phases of loads with a part of constant current, in order.
    pub fn magnitudes(&self) -> &[PhaseName]
        ensures { result.now ≡ self.now.magnitudes }
    {
        self.unknowns.magnitudes.as_slice()
    }

    /// The number of a node in order of first mention. One that isn't of the circuit has the number after the last.
    pub fn number_of(&self, name: &NodeName) -> usize
        ensures number { result ≡ number_in self.now.nodes name.now }
        ensures within { result ≤ length self.now.nodes }
        ensures small { result ≤ most_complex }
    {
        match self.unknowns.nodes.get_index_of(name) {
            Some(index) => index,
            None => self.unknowns.nodes.len(),
        }
    }

    /// Where a node stands in the equations: ground, or its number.
    pub fn node_at(&self, name: &NodeName) -> NodeAt
        ensures { result ≡ node_at self.now.nodes name.now }
    {
        if name.number == 0 {
            NodeAt::Ground
        } else {
            NodeAt::Node(self.number_of(name) as u32)
        }
    }

    fn nodes_at(&self, alloc: Global, names: &NodeNames) -> Result<NodesAt, AllocError>
        ensures { IfOk result (λ nodes. nodes ≡ map (node_at self.now.nodes) names.now) }
    {
        let mut nodes = Vec::new(alloc);
        for name in names.as_slice() {
            nodes.push(self.node_at(name))?;
        }
        Ok(NodesAt::new(nodes))
    }

    /// The complex unknown of the first branch phase of an element, which stands at this place in order; 0 for an
    /// element without branches.
    pub fn first_branch(&self, place: usize, element: &Element) -> u32
        requires { place < length self.now.branches_before }
        ensures { result ≡ first_branch self.now place element.now }
    {
        if branches_of(element) == 0 {
            return 0;
        }
        self.unknowns.nodes.len() as u32 + u32::from(self.unknowns.branches_before[place])
    }

    /// The place of the first magnitude of a load with a part of constant current, which stands at this place in order.
    pub fn first_magnitude(&self, place: usize) -> u32
        requires { place < length self.now.magnitudes_before }
        ensures { result ≡ first_magnitude self.now place }
    {
        let complex = self.unknowns.nodes.len() + self.unknowns.branches.len();
        2 * complex as u32 + u32::from(self.unknowns.magnitudes_before[place])
    }

    /// The nodes of an element's phases at its buses and its first branch; the element stands at this place in order.
    pub fn ends(&self, alloc: Global, place: usize, element: &Element) -> Result<Ends, AllocError>
        requires { place < length self.now.branches_before }
        ensures { IfOk result (λ ends. ends ≡ ends_of self.now place element.now) }
    {
        let terminals = terminal_nodes(alloc, element)?;
        Ok(Ends {
            first: self.nodes_at(alloc, &terminals.first)?,
            second: self.nodes_at(alloc, &terminals.second)?,
            branch: self.first_branch(place, element),
        })
    }
}
