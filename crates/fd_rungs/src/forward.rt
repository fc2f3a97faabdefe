// The forward pass: each branch gives the voltage of its outer node.
ghost use Rattle.std.specs.Prelude.{◌≡◌, ◌≤◌, ◌<◌, ◌*◌, ◌+◌, ◌^◌, ◌+ℤ◌, ◌-ℤ◌, ℕ, nat_abs, length, map, MatchResult, All, Ok, Err};
ghost use Rattle.fd_rungs.specs.Bounds.{AreRungs, branches_in};
ghost use Rattle.fd_rungs.specs.Numbers.{SizedBy};
ghost use Rattle.fd_rungs.specs.Branches.{IsBranch};
ghost use Rattle.fd_pattern.specs.fd_load.fd_exact.States.{part};
ghost use Rattle.fd_pattern.specs.fd_load.fd_exact.Sums.{sum_z};
ghost use Rattle.fd_rungs.specs.Numbers.{times};
ghost use Rattle.fd_rungs.specs.Passes.{forward, forward_branch, forward_rung, im_drop, im_drop_at, im_inner, im_outer, less_drop, re_drop, re_drop_at, re_inner, re_outer};

use crate::branch::{Branch, Numbers, Rung};
use crate::numbers::times;
use crate::state::{im_across, make_node, part, re_across};

// An entry of a row of coefficients times a part of the state.
fn product(row: &Numbers, m: usize, x: &[i128], place: usize) -> i128
    requires row { SizedBy (2 ^ 100) row.now }
    requires x { SizedBy (2 ^ 40) x.now }
    ensures value { result ≡ times (part row.now m) (part x.now place) }
    ensures small { nat_abs result ≤ 2 ^ 102 }
{
    times(part(row.as_slice(), m), part(x, place))
}

// What the current of phase m takes from the real part.
fn re_drop_at(branch: &Branch, x: &[i128], m: usize) -> i128
    requires branch { IsBranch branch.now }
    requires m_in { m < 3 }
    requires x { SizedBy (2 ^ 40) x.now }
    ensures value { result ≡ re_drop_at branch.now x.now m }
    ensures small { nat_abs result ≤ 2 ^ 103 }
{
    let place = 2 * (branch.from as usize + m);
    product(&branch.r, m, x, place) - product(&branch.x, m, x, place + 1)
}

// What the currents of the first n phases take from it.
fn re_drop_to(branch: &Branch, x: &[i128], n: usize) -> i128
    requires branch { IsBranch branch.now }
    requires few { n ≤ 3 }
    requires x { SizedBy (2 ^ 40) x.now }
    ensures value { result ≡ sum_z (re_drop_at branch.now x.now) n }
    ensures small { nat_abs result ≤ 2 ^ 105 }
{
    let mut drop = 0;
    for m in 0..n {
        drop += re_drop_at(branch, x, m);
    }
    drop
}

fn re_drop(branch: &Branch, x: &[i128]) -> i128
    requires branch { IsBranch branch.now }
    requires x { SizedBy (2 ^ 40) x.now }
    ensures value { result ≡ re_drop branch.now x.now }
    ensures small { nat_abs result ≤ 2 ^ 105 }
{
    re_drop_to(branch, x, branch.r.as_slice().len())
}

// What the current of phase m takes from the imaginary part.
fn im_drop_at(branch: &Branch, x: &[i128], m: usize) -> i128
    requires branch { IsBranch branch.now }
    requires m_in { m < 3 }
    requires x { SizedBy (2 ^ 40) x.now }
    ensures value { result ≡ im_drop_at branch.now x.now m }
    ensures small { nat_abs result ≤ 2 ^ 103 }
{
    let place = 2 * (branch.from as usize + m);
    product(&branch.r, m, x, place + 1) + product(&branch.x, m, x, place)
}

// What the currents of the first n phases take from it.
fn im_drop_to(branch: &Branch, x: &[i128], n: usize) -> i128
    requires branch { IsBranch branch.now }
    requires few { n ≤ 3 }
    requires x { SizedBy (2 ^ 40) x.now }
    ensures value { result ≡ sum_z (im_drop_at branch.now x.now) n }
    ensures small { nat_abs result ≤ 2 ^ 105 }
{
    let mut drop = 0;
    for m in 0..n {
        drop += im_drop_at(branch, x, m);
    }
    drop
}

fn im_drop(branch: &Branch, x: &[i128]) -> i128
    requires branch { IsBranch branch.now }
    requires x { SizedBy (2 ^ 40) x.now }
    ensures value { result ≡ im_drop branch.now x.now }
    ensures small { nat_abs result ≤ 2 ^ 105 }
{
    im_drop_to(branch, x, branch.r.as_slice().len())
}

// A voltage less the drop where the current runs outwards, and with it where it runs inwards.
fn less_drop(outward: bool, z: i128, drop: i128) -> i128
    requires z { nat_abs z ≤ 2 ^ 110 }
    requires drop { nat_abs drop ≤ 2 ^ 105 }
    ensures { result ≡ less_drop outward z drop }
{
    if outward { z - drop } else { z + drop }
}

// The real part of the voltage behind the branch.
fn re_inner(branch: &Branch, x: &[i128]) -> i128
    requires branch { IsBranch branch.now }
    requires x { SizedBy (2 ^ 40) x.now }
    ensures value { result ≡ re_inner branch.now x.now }
    ensures small { nat_abs result ≤ 2 ^ 110 }
{
    branch.re + times(branch.ratio, re_across(x, &branch.inner))
}

// The imaginary part of the voltage behind the branch.
fn im_inner(branch: &Branch, x: &[i128]) -> i128
    requires branch { IsBranch branch.now }
    requires x { SizedBy (2 ^ 40) x.now }
    ensures value { result ≡ im_inner branch.now x.now }
    ensures small { nat_abs result ≤ 2 ^ 110 }
{
    branch.im + times(branch.ratio, im_across(x, &branch.inner))
}

// The real part of the voltage at the outer node.
fn re_outer(branch: &Branch, x: &[i128]) -> i128
    requires branch { IsBranch branch.now }
    requires x { SizedBy (2 ^ 40) x.now }
    ensures { result ≡ re_outer branch.now x.now }
{
    less_drop(branch.outward, re_inner(branch, x), re_drop(branch, x))
}

// The imaginary part of the voltage at the outer node.
fn im_outer(branch: &Branch, x: &[i128]) -> i128
    requires branch { IsBranch branch.now }
    requires x { SizedBy (2 ^ 40) x.now }
    ensures { result ≡ im_outer branch.now x.now }
{
    less_drop(branch.outward, im_inner(branch, x), im_drop(branch, x))
}

// A branch gives the voltage of its outer node.
fn forward_branch(x: &mut [i128], branch: &Branch) -> Result<(), u32>
    requires branch { IsBranch branch.now }
    requires x { SizedBy (2 ^ 40) x.old }
    ensures made { MatchResult result (λ _. forward_branch branch.now x.old ≡ Ok x.new) (λ p. forward_branch branch.now x.old ≡ Err p) }
    ensures small { SizedBy (2 ^ 40) x.new }
    ensures long { length x.new ≡ length x.old }
{
    let (re, im) = (re_outer(branch, x), im_outer(branch, x));
    make_node(x, branch.outer, re, im)
}

// So does each branch of an element.
fn forward_rung(x: &mut [i128], branches: &[Branch]) -> Result<(), u32>
    requires branches { All IsBranch branches.now }
    requires x { SizedBy (2 ^ 40) x.old }
    ensures made { MatchResult result (λ _. forward_rung branches.now x.old ≡ Ok x.new) (λ p. forward_rung branches.now x.old ≡ Err p) }
    ensures small { SizedBy (2 ^ 40) x.new }
    ensures long { length x.new ≡ length x.old }
{
    for branch in branches {
        forward_branch(x, branch)?;
    }
    Ok(())
}

/// The forward pass over all rungs in order. The error is the place of the first part past 2^40 in size.
pub fn forward(x: &mut [i128], rungs: &[Rung]) -> Result<(), u32>
    requires rungs { AreRungs rungs.now }
    requires x { SizedBy (2 ^ 40) x.old }
    ensures made { MatchResult result (λ _. forward (map branches_in rungs.now) x.old ≡ Ok x.new)
        (λ p. forward (map branches_in rungs.now) x.old ≡ Err p) }
    ensures small { SizedBy (2 ^ 40) x.new }
    ensures long { length x.new ≡ length x.old }
{
    for rung in rungs {
        forward_rung(x, &rung.branches)?;
    }
    Ok(())
}
