// The least and the greatest size of a phasor within the radii of its parts.
ghost use Rattle.std.specs.Prelude.{◌≡◌, ◌+◌, ◌*◌, ◌<◌, ◌≤◌, ◌^◌, nat_abs};
ghost use Rattle.fd_report.specs.Sizes.{greatest_part as greatest_part_of, greatest_size as greatest_size_of, least_part as least_part_of, least_size as least_size_of, square as square_of};
ghost use Rattle.fd_sample.specs.Roots.{root_down as rounded_down, root_up as rounded_up};
ghost use Rattle.fd_report.specs.Solutions.{IsOfSize};

use crate::solution::Solution;

// The square root, rounded down, by Newton's steps from a start that isn't below it.
fn root_down(n: u128, start: u128) -> u128
    requires small { start ≤ 2 ^ 42 }
    requires start { n < (start + 1) * (start + 1) }
    ensures value { result ≡ rounded_down n }
    ensures low { result * result ≤ n }
    ensures small { result ≤ 2 ^ 42 }
{
    let mut root = start;
    while root * root > n {
        root = (root + n / root) / 2;
    }
    root
}

// The square root, rounded up, from a start that isn't below it rounded down.
fn root_up(n: u128, start: u128) -> u128
    requires small { start ≤ 2 ^ 42 }
    requires start { n < (start + 1) * (start + 1) }
    ensures { result ≡ rounded_up n }
{
    let root = root_down(n, start);
    if root * root == n { root } else { root + 1 }
}

// The least size of a part that is at most r away from c.
fn least_part(c: i128, r: u128) -> u128
    requires { nat_abs c ≤ 2 ^ 40 }
    ensures value { result ≡ least_part_of c r }
    ensures small { result ≤ 2 ^ 41 }
{
    c.unsigned_abs().saturating_sub(r)
}

// The greatest size of a part that is at most r away from c.
fn greatest_part(c: i128, r: u128) -> u128
    requires part { nat_abs c ≤ 2 ^ 40 }
    requires radius { r ≤ 2 ^ 40 }
    ensures value { result ≡ greatest_part_of c r }
    ensures small { result ≤ 2 ^ 41 }
{
    c.unsigned_abs() + r
}

fn square(n: u128) -> u128
    requires { n ≤ 2 ^ 41 }
    ensures value { result ≡ square_of n }
    ensures small { result ≤ 2 ^ 82 }
{
    n * n
}

/// The least size of complex unknown k of a solution within its radii, in whole micro-units, rounded down.
#[tactic(auto, unfolding(crate::specs::Sizes::least_size))]
pub(crate) fn least_size(s: &Solution, n: usize, k: usize) -> u128
    requires solution { IsOfSize n s.now }
    requires place { 2 * k + 2 ≤ n }
    ensures { result ≡ least_size_of s.now k }
{
    let re = least_part(s.centre()[2 * k], s.radii()[2 * k]);
    let im = least_part(s.centre()[2 * k + 1], s.radii()[2 * k + 1]);
    root_down(square(re) + square(im), re + im)
}

/// The greatest size of complex unknown k of a solution within its radii, in whole micro-units, rounded up.
#[tactic(auto, unfolding(crate::specs::Sizes::greatest_size))]
pub(crate) fn greatest_size(s: &Solution, n: usize, k: usize) -> u128
    requires solution { IsOfSize n s.now }
    requires place { 2 * k + 2 ≤ n }
    ensures { result ≡ greatest_size_of s.now k }
{
    let re = greatest_part(s.centre()[2 * k], s.radii()[2 * k]);
    let im = greatest_part(s.centre()[2 * k + 1], s.radii()[2 * k + 1]);
    root_up(square(re) + square(im), re + im)
}
