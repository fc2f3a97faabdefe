// The terminals of elements: the nodes that their phases join, and the nominal voltages of phases.
ghost use Rattle.std.specs.Prelude.{◌≡◌, ◌<◌, ◌^◌, length, All};
ghost use Rattle.fd_arith.specs.fd_exact.Ranges.{Between};
ghost use Rattle.fd_system.specs.Contributions.{IsSmall};
ghost use Rattle.fd_system.specs.Terminals.{IsSide, node_count, node_of, pair_of, pairs_of, phase_count, phase_volts as nominal, three_phase_pairs as three_phase, three_phase_volts as three_phase_nominal};

use fd_arith::{Conn, FEMTO_PER_ONE, NodeAt, NodesAt, ROOT_THREE, near_quotient};

/// How the phases of a terminal join its nodes.
#[derive(Clone, Copy, PartialEq, Eq, Debug)]
pub enum PhasePairs {
    /// The one phase joins the first node and the second.
    OnePhase,
    /// Each phase joins its node and ground.
    Wye,
    /// Each phase joins its node and the next; after the third comes the first.
    DeltaNext,
    /// Each phase joins its node and the one before it; before the first comes the third.
    DeltaPrevious,
}

/// The two nodes that a phase joins. Its voltage is that of the first less that of the second.
#[derive(Clone, Copy, PartialEq, Eq, Debug)]
pub struct NodePair {
    pub first: NodeAt,
    pub second: NodeAt,
}

/// The node of phase k.
pub fn node(nodes: &NodesAt, k: u32) -> NodeAt
    requires small { All IsSmall nodes.now }
    requires k_in { k < length nodes.now }
    ensures node { result ≡ node_of nodes.now k }
    ensures small { IsSmall result }
{
    nodes.as_slice()[k as usize]
}

/// The two nodes that phase k of a terminal joins (this profile). There are two nodes for one phase and three for three phases.
pub fn phase_pair(nodes: &NodesAt, pairs: PhasePairs, k: u32) -> NodePair
    requires side { IsSide (node_count (phase_count pairs)) nodes.now }
    requires k_in { k < phase_count pairs }
    ensures pair { result ≡ pair_of pairs nodes.now k }
    ensures first_small { IsSmall result.first }
    ensures second_small { IsSmall result.second }
{
    let second = match pairs {
        PhasePairs::OnePhase => node(nodes, 1),
        PhasePairs::Wye => NodeAt::Ground,
        PhasePairs::DeltaNext => node(nodes, (k + 1) % 3),
        PhasePairs::DeltaPrevious => node(nodes, (k + 2) % 3),
    };
    NodePair {
        first: node(nodes, k),
        second,
    }
}

/// How the phases of a capacitor or a load join its nodes: phase k of three in delta joins nodes k and k + 1 (this profile).
pub fn phase_pairs(phases: u32, conn: Conn) -> PhasePairs
    ensures { result ≡ pairs_of phases conn }
{
    if phases == 1 {
        PhasePairs::OnePhase
    } else {
        three_phase_pairs(conn)
    }
}

fn three_phase_pairs(conn: Conn) -> PhasePairs
    ensures { result ≡ three_phase conn }
{
    match conn {
        Conn::Wye => PhasePairs::Wye,
        Conn::Delta => PhasePairs::DeltaNext,
    }
}

/// The nominal voltage of a phase of a winding, a capacitor or a load in microvolts, of its kV in whole 10^-9, 0.01 to 1000 kilovolt
/// (OpenDSS manual, kV): the kV over root three, to the nearest microvolt, for three phases in wye, else the kV itself.
pub fn phase_volts(phases: u32, conn: Conn, kv: i128) -> i128
    requires { Between (10 ^ 7) (10 ^ 12) kv }
    ensures value { result ≡ nominal phases conn kv }
    ensures within { Between 5773000 (10 ^ 12) result }
{
    if phases == 1 {
        kv
    } else {
        three_phase_volts(conn, kv)
    }
}

fn three_phase_volts(conn: Conn, kv: i128) -> i128
    requires { Between (10 ^ 7) (10 ^ 12) kv }
    ensures value { result ≡ three_phase_nominal conn kv }
    ensures within { Between 5773000 (10 ^ 12) result }
{
    match conn {
        Conn::Wye => near_quotient(kv * FEMTO_PER_ONE, ROOT_THREE),
        Conn::Delta => kv,
    }
}
