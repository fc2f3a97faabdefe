// The sample of a regulator's control over a ball.
ghost use Rattle.std.specs.Prelude.{◌≡◌, length};
ghost use Rattle.fd_network.specs.fd_xfmr.Leakage.{AreTaps};
ghost use Rattle.fd_sample.specs.Balls.{IsBall};
ghost use Rattle.fd_sample.specs.Regulators.{AreRegSettings, IsOfEveryState, IsRegProbe, edge_at, own_tap as tap_of_own, reg_decision, reg_edge, reg_interval, wanted_at};
ghost use Rattle.fd_sample.specs.Samples.{IsRootSample, TellsEdge, greatest_root, least_root};

use crate::ends::{agreed, square_ends};
use crate::probe::RegProbe;
use crate::regulator::{edge_after, wanted};
use crate::relay::squares;
use fd_regctl::{Interval, Square, TapPair, Verdict};

/// The verdict of a regulator's control over the ball of these centres and radii, in whole microvolts and microamperes,
/// where its transformer stands at these taps. It is undecided exactly where the least and the greatest magnitude of
/// the interval want different things, or the interval is ALL; a decided one is what the control wants at every state
/// of the ball. Takes no memory.
pub fn regulator_verdict(
    probe: &RegProbe,
    taps: TapPair,
    centre: &[i128],
    radii: &[u128],
) -> Verdict
    requires probe { IsRegProbe (length centre.now) probe.now }
    requires taps { AreTaps taps }
    requires ball { IsBall centre.now radii.now }
    ensures sample { IsRootSample (reg_decision probe.now taps) (reg_edge probe.now taps) (reg_interval probe.now taps centre.now radii.now) result }
    ensures edge { TellsEdge (reg_decision probe.now taps)
        (least_root (reg_interval probe.now taps centre.now radii.now))
        (greatest_root (reg_interval probe.now taps centre.now radii.now)) result }
    ensures every_state { IsOfEveryState probe.now taps centre.now radii.now result }
{
    let tap = own_tap(probe, taps);
    over(probe, tap, squares(probe, taps, centre, radii))
}

fn own_tap(probe: &RegProbe, taps: TapPair) -> u32
    ensures { result ≡ tap_of_own probe.now taps }
{
    if probe.is_second {
        taps.second
    } else {
        taps.first
    }
}

// The verdict over an interval of squares, where the winding stands at this tap.
fn over(probe: &RegProbe, tap: u32, squares: Interval<Square>) -> Verdict
    requires settings { AreRegSettings probe.now }
    ensures sample { IsRootSample (wanted_at probe.now tap) (edge_at probe.now tap) squares result }
    ensures edge { TellsEdge (wanted_at probe.now tap) (least_root squares) (greatest_root squares) result }
{
    let (least, greatest) = square_ends(squares);
    let low = wanted(probe, tap, least);
    let high = wanted(probe, tap, greatest);
    agreed(squares, low, high, edge_after(probe, low))
}
