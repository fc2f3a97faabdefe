// The nodes of branches.
ghost use Rattle.std.specs.Prelude.{◌≡◌, ◌<◌, length};
ghost use Rattle.fd_pattern.specs.fd_system.Contributions.{IsSmall};
ghost use Rattle.fd_pattern.specs.fd_system.Terminals.{IsSide, node_of};
ghost use Rattle.std.specs.Prelude.{All};
ghost use Rattle.fd_rungs.specs.Branches.{to_ground};

use dss_model::NodesAt;
use fd_pattern::NodeAt;
use fd_xfmr::NodePair;

/// The node of phase k.
pub fn node_at(nodes: &NodesAt, k: u32) -> NodeAt
    requires small { All IsSmall nodes.now }
    requires k_in { k < length nodes.now }
    ensures node { result ≡ node_of nodes.now k }
    ensures small { IsSmall result }
{
    nodes.as_slice()[k as usize]
}

/// A node and ground.
pub fn to_ground(node: NodeAt) -> NodePair
    ensures { result ≡ to_ground node }
{
    NodePair {
        first: node,
        second: NodeAt::Ground,
    }
}
