// The nodes that are reached.
ghost use Rattle.std.specs.Prelude.{◌≡◌};
ghost use Rattle.std.specs.List.{list_all};
ghost use Rattle.fd_sweep.specs.Ladders.{is_reached, reached_by, with_outer};

use fd_series::{Branch, NodeAt, NodesAt};

fn is_reached(reached: &[bool], node: NodeAt) -> bool
    ensures { result ≡ is_reached reached.now node }
{
    match node {
        NodeAt::Ground => true,
        NodeAt::Node(k) => match reached.get(k as usize) {
            Some(here) => *here,
            None => false,
        },
    }
}

/// Whether all of these nodes are reached.
pub fn are_reached(reached: &[bool], nodes: &NodesAt) -> bool
    ensures { result ≡ list_all (is_reached reached.now) nodes.now }
{
    nodes
        .as_slice()
        .iter()
        .all(|node| is_reached(reached, *node))
}

fn reach_outer(reached: &mut [bool], branch: &Branch)
    ensures { reached.new ≡ with_outer reached.old branch.now }
{
    if let NodeAt::Node(k) = branch.outer {
        if (k as usize) < reached.len() {
            reached[k as usize] = true;
        }
    }
}

/// The outer nodes of branches are reached.
pub fn reach_all(reached: &mut [bool], branches: &[Branch])
    ensures { reached.new ≡ reached_by branches.now reached.old }
{
    for branch in branches {
        reach_outer(reached, branch);
    }
}
