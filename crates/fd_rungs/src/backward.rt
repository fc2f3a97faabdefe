// The backward pass: each branch gets as current what its outer node draws.
ghost use Rattle.std.specs.Prelude.{◌≡◌, ◌≤◌, ◌<◌, ◌*◌, ◌+◌, ◌^◌, ℕ, nat_abs, length, map, MatchResult, OnOk, All, Ok, Err};
ghost use Rattle.fd_rungs.specs.Bounds.{AreRungs, branches_in};
ghost use Rattle.fd_rungs.specs.Numbers.{SizedBy};
ghost use Rattle.fd_rungs.specs.Branches.{IsBranch};
ghost use Rattle.fd_rungs.specs.Passes.{backward, backward_branch, backward_rung, flow_with, turned};

use crate::branch::{Branch, Rung};
use crate::draws::draw_across;
use crate::numbers::times;
use crate::state::{im_at, make_both, re_at};

fn turned(outward: bool, z: i128) -> i128
    requires { nat_abs z ≤ 2 ^ 118 }
    ensures value { result ≡ turned outward z }
    ensures size { nat_abs result ≡ nat_abs z }
{
    if outward { z } else { -z }
}

// A branch gets as current what its outer node draws, and draws it at its inner terminal.
fn backward_branch(x: &mut [i128], draws: &mut [i128], branch: &Branch) -> Result<(), u32>
    requires branch { IsBranch branch.now }
    requires x { SizedBy (2 ^ 40) x.old }
    requires draws { SizedBy (2 ^ 118) draws.old }
    ensures made { MatchResult result (λ _. backward_branch branch.now (flow_with x.old draws.old) ≡ Ok (flow_with x.new draws.new))
        (λ p. backward_branch branch.now (flow_with x.old draws.old) ≡ Err p) }
    ensures small { SizedBy (2 ^ 40) x.new }
    ensures long { length x.new ≡ length x.old }
    ensures size { OnOk result ((n : ℕ) → SizedBy n draws.old → SizedBy (n + 2 ^ 80) draws.new) }
{
    let (re, im) = (re_at(draws, branch.outer), im_at(draws, branch.outer));
    make_both(
        x,
        branch.own,
        turned(branch.outward, re),
        turned(branch.outward, im),
    )?;
    draw_across(
        draws,
        &branch.inner,
        times(branch.ratio, re),
        times(branch.ratio, im),
    );
    Ok(())
}

// So does each branch of an element.
fn backward_rung(x: &mut [i128], draws: &mut [i128], branches: &[Branch]) -> Result<(), u32>
    requires few { length branches.now ≤ 3 }
    requires branches { All IsBranch branches.now }
    requires x { SizedBy (2 ^ 40) x.old }
    requires draws { SizedBy (2 ^ 110) draws.old }
    ensures made { MatchResult result (λ _. backward_rung branches.now (flow_with x.old draws.old) ≡ Ok (flow_with x.new draws.new))
        (λ p. backward_rung branches.now (flow_with x.old draws.old) ≡ Err p) }
    ensures small { SizedBy (2 ^ 40) x.new }
    ensures long { length x.new ≡ length x.old }
    ensures size { OnOk result ((n : ℕ) → SizedBy n draws.old → SizedBy (n + 2 ^ 82) draws.new) }
{
    for branch in branches {
        backward_branch(x, draws, branch)?;
    }
    Ok(())
}

/// The backward pass over all rungs, the last first. The error is the place of the first part past 2^40 in size.
pub fn backward(x: &mut [i128], draws: &mut [i128], rungs: &[Rung]) -> Result<(), u32>
    requires rungs { AreRungs rungs.now }
    requires x { SizedBy (2 ^ 40) x.old }
    requires draws { SizedBy (2 ^ 105) draws.old }
    ensures made { MatchResult result (λ _. backward (map branches_in rungs.now) (flow_with x.old draws.old) ≡ Ok (flow_with x.new draws.new))
        (λ p. backward (map branches_in rungs.now) (flow_with x.old draws.old) ≡ Err p) }
    ensures small { SizedBy (2 ^ 40) x.new }
    ensures long { length x.new ≡ length x.old }
{
    let mut left = rungs.len();
    while left > 0 {
        left -= 1;
        backward_rung(x, draws, &rungs[left].branches)?;
    }
    Ok(())
}
