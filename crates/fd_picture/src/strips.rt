// The strips of panels: rows of nodes that fit beside each other on a page.
ghost use Rattle.std.specs.Prelude.{◌≡◌, ◌++◌, IfOk, OnOk};
ghost use Rattle.fd_picture.specs.Strips.{drawn, strip_by, strips_of};

use crate::report::{Node, Panel};
use std::alloc::{AllocError, Global};
use std::marker::Model;

/// Some nodes of a panel, in order. Contracts see a panel of these nodes.
#[derive(Drop)]
pub(crate) struct Strip<'a> {
    settle: u64,
    hour: u64,
    round: u64,
    nodes: &'a [Node],
}

impl<'a> Model for Strip<'a> {
    ghost use Rattle.fd_picture.specs.declared.report.Panel.{Panel};

    ghost Value = { Panel };

    ghost view = { λ s. record { settle = s.settle; hour = s.hour; round = s.round; nodes = s.nodes.now } };
}

impl<'a> Strip<'a> {
    fn new(panel: &Panel, nodes: &'a [Node]) -> Strip<'a>
        ensures { result ≡ strip_by panel.now nodes.now }
    {
        Strip {
            settle: panel.settle,
            hour: panel.hour,
            round: panel.round,
            nodes,
        }
    }

    pub(crate) fn settle(&self) -> u64
        ensures { result ≡ self.now.settle }
    {
        self.settle
    }

    pub(crate) fn hour(&self) -> u64
        ensures { result ≡ self.now.hour }
    {
        self.hour
    }

    pub(crate) fn round(&self) -> u64
        ensures { result ≡ self.now.round }
    {
        self.round
    }

    pub(crate) fn nodes(&self) -> &[Node]
        ensures { result.now ≡ self.now.nodes }
    {
        self.nodes
    }
}

/// The most nodes of a strip.
pub(crate) const MOST_NODES: usize = 42;

// Adds the strips of a panel.
#[tactic(auto, unfolding(crate::specs::Strips::strips_of))]
fn push_strips<'a>(strips: &mut Vec<Strip<'a>>, panel: &'a Panel) -> Result<(), AllocError>
    ensures { OnOk result (strips.new.items ≡ strips.old.items ++ strips_of panel.now) }
{
    let nodes = panel.nodes.as_slice();
    let full = nodes.len().saturating_sub(1) / MOST_NODES;
    for i in 0..full {
        strips.push(Strip::new(panel, &nodes[MOST_NODES * i..MOST_NODES * (i + 1)]))?;
    }
    strips.push(Strip::new(panel, &nodes[MOST_NODES * full..]))?;
    Ok(())
}

/// The strips of all panels, in order.
pub(crate) fn drawn(alloc: Global, panels: &[Panel]) -> Result<Vec<Strip>, AllocError>
    ensures { IfOk result (λ strips. strips.items ≡ drawn panels.now) }
{
    let mut strips = Vec::new(alloc);
    for panel in panels {
        push_strips(&mut strips, panel)?;
    }
    Ok(strips)
}
