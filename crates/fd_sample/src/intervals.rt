// The intervals of unknowns over a ball.
ghost use Rattle.std.specs.Prelude.{◌≡◌, ◌<◌, ◌≤◌, ◌^◌, pos, nat_abs, length, All};
ghost use Rattle.fd_network.specs.fd_exact.States.{part};
ghost use Rattle.fd_network.specs.fd_system.Residual.{IsPlace};
ghost use Rattle.fd_network.specs.fd_pattern.Conditions.{IsPart};
ghost use Rattle.fd_sample.specs.Balls.{IsBall, interval_across as across_of, interval_at as at_node, place_interval as at_place, radius_at as radius_of};

use fd_network::NodePair;
use fd_regctl::{Cx, Interval, Micro, NodeAt};

/// The interval of the real unknown at a place.
pub fn place_interval(centre: &[i128], radii: &[u128], place: usize) -> Interval<Micro>
    requires ball { IsBall centre.now radii.now }
    requires inside { place < length centre.now }
    ensures { result ≡ at_place centre.now radii.now place }
{
    let (middle, radius) = (centre_at(centre, place), radius_at(radii, place));
    Interval::between(middle - radius, middle + radius)
}

// The centre at a place.
fn centre_at(centre: &[i128], place: usize) -> i128
    requires parts { All IsPart centre.now }
    requires inside { place < length centre.now }
    ensures value { result ≡ part centre.now place }
    ensures small { nat_abs result ≤ 2 ^ 40 }
{
    centre[place]
}

// The radius at a place.
fn radius_at(radii: &[u128], place: usize) -> i128
    requires radii { All (λ n. n ≤ 2 ^ 40) radii.now }
    requires inside { place < length radii.now }
    ensures value { result ≡ pos (radius_of radii.now place) }
    ensures small { nat_abs result ≤ 2 ^ 40 }
{
    radii[place] as i128
}

/// The intervals of a complex unknown's parts; 0 at ground.
pub fn interval_at(centre: &[i128], radii: &[u128], node: NodeAt) -> Cx<Interval<Micro>>
    requires ball { IsBall centre.now radii.now }
    requires place { IsPlace (length centre.now) node }
    ensures { result ≡ at_node centre.now radii.now node }
{
    match node {
        NodeAt::Ground => Cx {
            re: Interval::point(0),
            im: Interval::point(0),
        },
        NodeAt::Node(k) => Cx {
            re: place_interval(centre, radii, 2 * k as usize),
            im: place_interval(centre, radii, 2 * k as usize + 1),
        },
    }
}

/// The intervals of the first node's unknown less the second's.
pub fn interval_across(centre: &[i128], radii: &[u128], nodes: NodePair) -> Cx<Interval<Micro>>
    requires ball { IsBall centre.now radii.now }
    requires first { IsPlace (length centre.now) nodes.first }
    requires second { IsPlace (length centre.now) nodes.second }
    ensures { result ≡ across_of centre.now radii.now nodes }
{
    interval_at(centre, radii, nodes.first) - interval_at(centre, radii, nodes.second)
}
