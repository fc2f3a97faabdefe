// The reactive power that enters a line, over a ball.
ghost use Rattle.std.specs.Prelude.{◌≡◌, ◌<◌, length};
ghost use Rattle.fd_sample.specs.Balls.{IsBall};
ghost use Rattle.fd_sample.specs.Banks.{IsLineEnd, entering_interval, reactive_interval, reactive_total};

use crate::intervals::interval_at;
use crate::probe::LineEnd;
use fd_regctl::{Cx, Interval, Micro, NodeAt, Square};

/// The interval of the reactive power that enters a line at one of its ends, in 10^-15 kvar.
pub fn reactive_power(end: &LineEnd, centre: &[i128], radii: &[u128]) -> Interval<Square>
    requires end { IsLineEnd (length centre.now) end.now }
    requires ball { IsBall centre.now radii.now }
    ensures { result ≡ reactive_total end.now centre.now radii.now end.now.phases }
{
    let mut total = Interval::point(0);
    for k in 0..end.phases {
        total = total + reactive(end, centre, radii, k);
    }
    total
}

// The imaginary part of v conj(i) in phase k.
fn reactive(end: &LineEnd, centre: &[i128], radii: &[u128], k: u32) -> Interval<Square>
    requires end { IsLineEnd (length centre.now) end.now }
    requires ball { IsBall centre.now radii.now }
    requires k_in { k < end.now.phases }
    ensures { result ≡ reactive_interval end.now centre.now radii.now k }
{
    let v = interval_at(centre, radii, end.nodes[k as usize]);
    let i = entering(end, centre, radii, k);
    v.re.area(-i.im) + v.im.area(i.re)
}

// The current that enters the line in phase k.
fn entering(end: &LineEnd, centre: &[i128], radii: &[u128], k: u32) -> Cx<Interval<Micro>>
    requires end { IsLineEnd (length centre.now) end.now }
    requires ball { IsBall centre.now radii.now }
    requires k_in { k < end.now.phases }
    ensures { result ≡ entering_interval end.now centre.now radii.now k }
{
    let branch = interval_at(centre, radii, NodeAt::Node(end.branch + k));
    if end.is_second { -branch } else { branch }
}
