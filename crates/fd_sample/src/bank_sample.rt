// The sample of a bank's control over a ball.
ghost use Rattle.std.specs.Prelude.{◌≤◌, ◌^◌, nat_abs, length, IsSome};
ghost use Rattle.fd_sample.specs.Balls.{IsBall};
ghost use Rattle.fd_sample.specs.Banks.{AgreesAtEveryState, IsCapProbe, IsCapSample, cap_decision, cap_edge, cap_interval, greatest_of, kind_of, least_of};
ghost use Rattle.fd_sample.specs.Samples.{IsRootSample, IsValueSample, TellsEdge, greatest_root, greatest_value, least_root, least_value};

use crate::bank::{edge_of, ratio_squares, wanted_at_root, wanted_at_value};
use crate::ends::{agreed, agreed_value, square_ends, value_ends};
use crate::lineflow::reactive_power;
use crate::probe::{CapProbe, Measured};
use fd_regctl::{Interval, NodeAt, Square, Verdict};

/// The verdict of a bank's control over the ball of these centres and radii, in whole microvolts and microamperes,
/// where its bank is closed or open. It is undecided exactly where the least and the greatest value of the interval
/// want different things, or the interval is ALL; a decided one is what the control wants at every state of the ball.
/// Takes no memory.
pub fn bank_verdict(probe: &CapProbe, closed: bool, centre: &[i128], radii: &[u128]) -> Verdict
    requires probe { IsCapProbe (length centre.now) probe.now }
    requires ball { IsBall centre.now radii.now }
    ensures sample { IsCapSample (kind_of probe.now.measured) (cap_decision probe.now closed)
        (cap_edge probe.now closed) (cap_interval probe.now.measured centre.now radii.now) result }
    ensures edge { IsSome (cap_interval probe.now.measured centre.now radii.now)
        → TellsEdge (cap_decision probe.now closed)
        (least_of (kind_of probe.now.measured) (cap_interval probe.now.measured centre.now radii.now))
        (greatest_of (kind_of probe.now.measured) (cap_interval probe.now.measured centre.now radii.now)) result }
    ensures every_state { AgreesAtEveryState probe.now closed centre.now radii.now result }
{
    match probe.measured {
        Measured::Voltage { node, ratio } => {
            over_squares(probe, closed, ratio_squares(node, ratio, centre, radii))
        }
        Measured::Current { branch, ratio } => {
            let node = NodeAt::Node(branch);
            over_squares(probe, closed, ratio_squares(node, ratio, centre, radii))
        }
        Measured::Kvar(end) => over_values(probe, closed, reactive_power(&end, centre, radii)),
    }
}

// The verdict over an interval of squares of magnitudes.
fn over_squares(probe: &CapProbe, closed: bool, squares: Interval<Square>) -> Verdict
    requires on { nat_abs probe.now.on ≤ 10 ^ 15 }
    requires off { nat_abs probe.now.off ≤ 10 ^ 15 }
    ensures sample { IsRootSample (cap_decision probe.now closed) (λ d. cap_edge probe.now closed) squares result }
    ensures edge { IsSome squares →
        TellsEdge (cap_decision probe.now closed) (least_root squares) (greatest_root squares) result }
{
    let (least, greatest) = square_ends(squares);
    let low = wanted_at_root(probe, closed, least);
    let high = wanted_at_root(probe, closed, greatest);
    agreed(squares, low, high, edge_of(probe, closed))
}

// The verdict over an interval of values.
fn over_values(probe: &CapProbe, closed: bool, values: Interval<Square>) -> Verdict
    requires on { nat_abs probe.now.on ≤ 10 ^ 15 }
    requires off { nat_abs probe.now.off ≤ 10 ^ 15 }
    ensures sample { IsValueSample (cap_decision probe.now closed) (λ d. cap_edge probe.now closed) values result }
    ensures edge { IsSome values →
        TellsEdge (cap_decision probe.now closed) (least_value values) (greatest_value values) result }
{
    let (least, greatest) = value_ends(values);
    let low = wanted_at_value(probe, closed, least);
    let high = wanted_at_value(probe, closed, greatest);
    agreed_value(values, low, high, edge_of(probe, closed))
}
