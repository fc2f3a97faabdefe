// The voltage that a regulator's control sees, over a ball.
ghost use Rattle.std.specs.Prelude.{◌≡◌, ◌*◌, ◌≤◌, ◌^◌, length};
ghost use Rattle.fd_network.specs.fd_xfmr.Leakage.{AreTaps};
ghost use Rattle.fd_sample.specs.Balls.{IsBall};
ghost use Rattle.fd_sample.specs.Regulators.{IsRegProbe, delivered_interval, reg_interval, relay_interval, turns_interval};

use crate::intervals::{interval_across, interval_at};
use crate::phasors::{factor, scaled, square_size};
use crate::probe::RegProbe;
use fd_regctl::{Coef, Cx, Interval, Micro, NodeAt, Square, TapPair};

// 1 in 10^-9
const NANO_PER_ONE: i128 = 1_000_000_000;

/// The interval of the square of the magnitude, in whole 10^-12.
#[tactic(auto, unfolding(crate::specs::Regulators::reg_interval))]
pub fn squares(probe: &RegProbe, taps: TapPair, centre: &[i128], radii: &[u128]) -> Interval<Square>
    requires probe { IsRegProbe (length centre.now) probe.now }
    requires taps { AreTaps taps }
    requires ball { IsBall centre.now radii.now }
    ensures { result ≡ reg_interval probe.now taps centre.now radii.now }
{
    square_size(relay_voltage(probe, taps, centre, radii))
}

// The phasor V / ptratio - (R + j X) I / CTprim.
fn relay_voltage(
    probe: &RegProbe,
    taps: TapPair,
    centre: &[i128],
    radii: &[u128],
) -> Cx<Interval<Micro>>
    requires probe { IsRegProbe (length centre.now) probe.now }
    requires taps { AreTaps taps }
    requires ball { IsBall centre.now radii.now }
    ensures { result ≡ relay_interval probe.now taps centre.now radii.now }
{
    let volts = interval_across(centre, radii, probe.nodes);
    let current = delivered(probe, taps, centre, radii);
    let (r, x) = (factor(probe.r, probe.ctprim), factor(probe.x, probe.ctprim));
    scaled(volts, factor(NANO_PER_ONE, probe.ptratio)) - current.times(r, x)
}

// The current that the winding delivers.
fn delivered(
    probe: &RegProbe,
    taps: TapPair,
    centre: &[i128],
    radii: &[u128],
) -> Cx<Interval<Micro>>
    requires probe { IsRegProbe (length centre.now) probe.now }
    requires taps { AreTaps taps }
    requires ball { IsBall centre.now radii.now }
    ensures { result ≡ delivered_interval probe.now taps centre.now radii.now }
{
    let branch = interval_at(centre, radii, NodeAt::Node(probe.branch));
    if probe.is_second {
        branch
    } else {
        -scaled(branch, turns(probe, taps))
    }
}

// The ratio of the turns at the taps.
fn turns(probe: &RegProbe, taps: TapPair) -> Interval<Coef>
    requires first_least { 1 ≤ probe.now.first_volts }
    requires first_most { probe.now.first_volts ≤ 10 ^ 12 }
    requires second_most { probe.now.second_volts ≤ 10 ^ 12 }
    requires taps { AreTaps taps }
    ensures { result ≡ turns_interval probe.now taps }
{
    let up = probe.second_volts * taps.second as u128;
    factor(up as i128, probe.first_volts * taps.first as u128)
}
