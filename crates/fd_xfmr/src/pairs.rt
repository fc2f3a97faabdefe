// The nodes that the phases of the windings join.
ghost use Rattle.std.specs.Prelude.{◌≡◌, ◌⊎◌};
ghost use Rattle.fd_system.specs.Terminals.{phase_count};
ghost use Rattle.fd_xfmr.specs.Windings.{first_pairs, second_pairs, three_phase_winding as three_phase_at, winding_at};

use crate::data::XfmrData;
use fd_system::{Conn, PhasePairs};

/// How the phases of winding 1 and of winding 2 join their nodes (this profile). Winding 1 is the higher side where its kV isn't below
/// that of winding 2; a delta winding joins nodes k and k - 1 at the higher side of a delta-wye transformer, else k and k + 1.
pub fn winding_pairs(xfmr: &XfmrData) -> (PhasePairs, PhasePairs)
    requires { (xfmr.now.phases ≡ 1) ⊎ (xfmr.now.phases ≡ 3) }
    ensures first { result.0 ≡ first_pairs xfmr.now }
    ensures second { result.1 ≡ second_pairs xfmr.now }
    ensures first_count { phase_count result.0 ≡ xfmr.now.phases }
    ensures second_count { phase_count result.1 ≡ xfmr.now.phases }
{
    let higher = xfmr.kv[0] >= xfmr.kv[1];
    let [first, second] = xfmr.conn;
    (
        pairs_at(xfmr.phases, first, second, higher),
        pairs_at(xfmr.phases, second, first, !higher),
    )
}

// How the phases of a winding join its nodes, by its connection, that of the other winding, and whether it is the higher side.
fn pairs_at(phases: u32, own: Conn, other: Conn, higher: bool) -> PhasePairs
    requires { (phases ≡ 1) ⊎ (phases ≡ 3) }
    ensures pairs { result ≡ winding_at phases own other higher }
    ensures count { phase_count result ≡ phases }
{
    if phases == 1 {
        PhasePairs::OnePhase
    } else {
        three_phase_winding(own, other, higher)
    }
}

fn three_phase_winding(own: Conn, other: Conn, higher: bool) -> PhasePairs
    ensures pairs { result ≡ three_phase_at own other higher }
    ensures count { phase_count result ≡ 3 }
{
    match (own, other, higher) {
        (Conn::Wye, _, _) => PhasePairs::Wye,
        (Conn::Delta, Conn::Wye, true) => PhasePairs::DeltaPrevious,
        (Conn::Delta, _, _) => PhasePairs::DeltaNext,
    }
}
