// What a bank's control wants at its quantity.
ghost use Rattle.std.specs.Prelude.{◌≡◌, ◌≤◌, ◌^◌, nat_abs, true, length};
ghost use Rattle.fd_network.specs.fd_system.Residual.{IsPlace};
ghost use Rattle.fd_regctl.specs.fd_queue.Quantities.{magnitude, value};
ghost use Rattle.fd_regctl.specs.fd_queue.Verdicts.{decision, is_decided};
ghost use Rattle.fd_sample.specs.Balls.{IsBall};
ghost use Rattle.fd_sample.specs.Banks.{IsRatio, cap_decision, cap_edge, is_past as past, kind_of, ratio_interval, setting_of, switched as switched_by};

use crate::intervals::interval_at;
use crate::phasors::{factor, scaled, square_size};
use crate::probe::{CapProbe, Measured};
use crate::roots::{is_above, is_below};
use fd_network::near_quotient;
use fd_regctl::{Interval, NodeAt, Square, Verdict};

// 1 in 10^-9, a micro-unit in 10^-9, and 10^-9 kvar in 10^-15 kvar
const NANO_PER_ONE: i128 = 1_000_000_000;

const NANO_PER_MICRO: u128 = 1000;

const FEMTO_PER_NANO: i128 = 1_000_000;

/// The interval of the square of the magnitude of a phasor over the ratio of its transformer, in whole 10^-12.
pub fn ratio_squares(node: NodeAt, ratio: u128, centre: &[i128], radii: &[u128]) -> Interval<Square>
    requires place { IsPlace (length centre.now) node }
    requires ratio { IsRatio ratio }
    requires ball { IsBall centre.now radii.now }
    ensures { result ≡ ratio_interval node ratio centre.now radii.now }
{
    square_size(scaled(
        interval_at(centre, radii, node),
        factor(NANO_PER_ONE, ratio),
    ))
}

/// What the control wants at the magnitude of this square, in whole 10^-12, where its bank is closed or open.
pub fn wanted_at_root(probe: &CapProbe, closed: bool, square: u128) -> Verdict
    requires on { nat_abs probe.now.on ≤ 10 ^ 15 }
    requires off { nat_abs probe.now.off ≤ 10 ^ 15 }
    ensures decided { is_decided result ≡ true }
    ensures decision { decision result ≡ cap_decision probe.now closed (magnitude square 1) }
{
    let edge = edge_of(probe, closed);
    switched(
        closed,
        is_past(
            probe,
            closed,
            is_below(square, edge),
            is_above(square, edge),
        ),
    )
}

/// What it wants at this value, in whole 10^-15.
pub fn wanted_at_value(probe: &CapProbe, closed: bool, n: i128) -> Verdict
    requires on { nat_abs probe.now.on ≤ 10 ^ 15 }
    requires off { nat_abs probe.now.off ≤ 10 ^ 15 }
    ensures decided { is_decided result ≡ true }
    ensures decision { decision result ≡ cap_decision probe.now closed (value n (10 ^ 6)) }
{
    let edge = edge_of(probe, closed) * FEMTO_PER_NANO;
    switched(closed, is_past(probe, closed, n < edge, edge < n))
}

/// The value at which the verdict changes: in whole microvolts or microamperes, or in 10^-9 kvar.
pub fn edge_of(probe: &CapProbe, closed: bool) -> i128
    requires on { nat_abs probe.now.on ≤ 10 ^ 15 }
    requires off { nat_abs probe.now.off ≤ 10 ^ 15 }
    ensures value { result ≡ cap_edge probe.now closed }
    ensures small { nat_abs result ≤ 2 ^ 62 }
{
    if closed {
        setting(probe, probe.off)
    } else {
        setting(probe, probe.on)
    }
}

// A setting as an edge.
fn setting(probe: &CapProbe, z: i128) -> i128
    requires { nat_abs z ≤ 10 ^ 15 }
    ensures value { result ≡ setting_of (kind_of probe.now.measured) z }
    ensures small { nat_abs result ≤ 2 ^ 62 }
{
    match probe.measured {
        Measured::Voltage { .. } | Measured::Current { .. } => near_quotient(z, NANO_PER_MICRO),
        Measured::Kvar(_) => z,
    }
}

// Whether the bank is past the setting that its state looks at, where its quantity is below, or above, the edge.
fn is_past(probe: &CapProbe, closed: bool, below: bool, above: bool) -> bool
    ensures { result ≡ past (kind_of probe.now.measured) closed below above }
{
    match probe.measured {
        Measured::Voltage { .. } => if closed { above } else { below },
        Measured::Current { .. } | Measured::Kvar(_) => if closed { below } else { above },
    }
}

fn switched(closed: bool, past: bool) -> Verdict
    ensures decided { is_decided result ≡ true }
    ensures decision { decision result ≡ switched_by closed past }
{
    match (past, closed) {
        (false, _) => Verdict::Hold,
        (true, true) => Verdict::Lower { steps: 1 },
        (true, false) => Verdict::Raise { steps: 1 },
    }
}
