// The branches of a Transformer.
ghost use Rattle.std.specs.Prelude.{◌≡◌, ◌≤◌, ◌<◌, ◌*◌, ◌^◌, pos, ◌≤ℤ◌, [], ◌∷◌, nat_abs, IfOk};
ghost use Rattle.fd_xfmr.specs.Leakage.{AreTaps, AreWithin, IsXfmr, coefficients_of};
ghost use Rattle.fd_xfmr.specs.Transformer.{ArePlaces, IsBetween};
ghost use Rattle.fd_rungs.specs.Bounds.{IsRung};
ghost use Rattle.fd_pattern.specs.fd_system.Contributions.{IsSmall};
ghost use Rattle.fd_rungs.specs.Branches.{IsBranch, IsCoefficients};
ghost use Rattle.fd_rungs.specs.Elements.{facing, outer_node, stands_first, each_below, transformer_branch, transformer_branches, transformer_phase};
ghost use Rattle.fd_rungs.specs.Numbers.{coefficient, IsSmallCoefficient};

use crate::branch::{Branch, Numbers, Rung};
use crate::coefficients::coefficient;
use dss_model::{Ends, TapPair};
use fd_pattern::NodeAt;
use fd_xfmr::{Coefficients, NodePair, PhaseAt, XfmrData, coefficients_at, phase_at};
use std::alloc::{AllocError, Global};

/// Leakage impedances at the taps are in whole numbers of this part of an ohm.
const PER_OHM: u128 = 10_000_000_000_000_000_000_000;

// Whether a node stands first, and not ground.
fn stands_first(node: NodeAt) -> bool
    ensures { result ≡ stands_first node }
{
    match node {
        NodeAt::Ground => false,
        NodeAt::Node(_) => true,
    }
}

// The node that a phase of winding 2 joins to ground.
fn outer_node(pair: NodePair) -> NodeAt
    requires first { IsSmall pair.first }
    requires second { IsSmall pair.second }
    ensures value { result ≡ outer_node pair }
    ensures small { IsSmall result }
{
    match pair.first {
        NodeAt::Ground => pair.second,
        NodeAt::Node(k) => NodeAt::Node(k),
    }
}

fn facing(outward: bool, z: i128) -> i128
    requires { IsSmallCoefficient z }
    ensures value { result ≡ facing outward z }
    ensures small { IsSmallCoefficient result }
{
    if outward { z } else { -z }
}

// The ratio at the taps, in whole 2^-40, from numbers at most so large.
fn ratio_of(numbers: &Coefficients) -> i128
    requires ratio { nat_abs numbers.now.ratio ≤ 10 ^ 12 * 200000 }
    requires over { pos 28865000000 ≤ℤ numbers.now.ratio_over }
    requires within { AreWithin numbers.now }
    ensures value { result ≡ coefficient numbers.now.ratio (nat_abs numbers.now.ratio_over) }
    ensures small { IsSmallCoefficient result }
{
    coefficient(numbers.ratio, numbers.ratio_over.unsigned_abs())
}

// A row of one impedance at the taps.
fn sole(alloc: Global, n: i128) -> Result<Numbers, AllocError>
    requires { nat_abs n ≤ 10 ^ 36 }
    ensures value { IfOk result (λ row. row ≡ coefficient n (10 ^ 22) ∷ []) }
    ensures small { IfOk result (λ row. IsCoefficients 1 row) }
{
    let mut row = Vec::new(alloc);
    row.push(ohms_at_taps(n))?;
    Ok(Numbers::new(row))
}

fn ohms_at_taps(n: i128) -> i128
    requires { nat_abs n ≤ 10 ^ 36 }
    ensures value { result ≡ coefficient n (10 ^ 22) }
    ensures small { nat_abs result ≤ 2 ^ 100 }
{
    coefficient(n, PER_OHM)
}

/// The branches of a Transformer at its taps, taken from winding 1 (Kersting, three-phase transformer models).
pub fn transformer_rung(
    alloc: Global,
    xfmr: &XfmrData,
    taps: TapPair,
    at: &Ends,
) -> Result<Rung, AllocError>
    requires xfmr { IsXfmr xfmr.now }
    requires taps { AreTaps taps }
    requires at { IsBetween xfmr.now.phases at.now }
    ensures value { IfOk result (λ rung. rung.branches.items ≡ transformer_branches xfmr.now taps at.now) }
    ensures small { IfOk result IsRung }
{
    branches_by(alloc, &coefficients_at(xfmr, taps), xfmr, at)
}

// The branches by the numbers of the equations.
fn branches_by(
    alloc: Global,
    numbers: &Coefficients,
    xfmr: &XfmrData,
    at: &Ends,
) -> Result<Rung, AllocError>
    requires ratio { nat_abs numbers.now.ratio ≤ 10 ^ 12 * 200000 }
    requires over { pos 28865000000 ≤ℤ numbers.now.ratio_over }
    requires within { AreWithin numbers.now }
    requires xfmr { IsXfmr xfmr.now }
    requires at { IsBetween xfmr.now.phases at.now }
    ensures value { IfOk result (λ rung. rung.branches.items ≡ each_below (transformer_phase numbers.now xfmr.now at.now) xfmr.now.phases) }
    ensures small { IfOk result IsRung }
{
    let mut branches = Vec::new(alloc);
    for k in 0..xfmr.phases {
        branches.push(transformer_phase(alloc, numbers, xfmr, at, k)?)?;
    }
    Ok(Rung { branches })
}

// Phase k.
fn transformer_phase(
    alloc: Global,
    numbers: &Coefficients,
    xfmr: &XfmrData,
    at: &Ends,
    k: u32,
) -> Result<Branch, AllocError>
    requires ratio { nat_abs numbers.now.ratio ≤ 10 ^ 12 * 200000 }
    requires over { pos 28865000000 ≤ℤ numbers.now.ratio_over }
    requires within { AreWithin numbers.now }
    requires xfmr { IsXfmr xfmr.now }
    requires at { IsBetween xfmr.now.phases at.now }
    requires k_in { k < xfmr.now.phases }
    ensures value { IfOk result (λ branch. branch ≡ transformer_phase numbers.now xfmr.now at.now k) }
    ensures small { IfOk result IsBranch }
{
    let phase = phase_at(xfmr, at, k);
    transformer_branch(alloc, numbers, ratio_of(numbers), &phase, at.branch + k)
}

fn transformer_branch(
    alloc: Global,
    numbers: &Coefficients,
    ratio: i128,
    at: &PhaseAt,
    own: u32,
) -> Result<Branch, AllocError>
    requires numbers { AreWithin numbers.now }
    requires ratio { ratio ≡ coefficient numbers.now.ratio (nat_abs numbers.now.ratio_over) }
    requires ratio_small { IsSmallCoefficient ratio }
    requires at { ArePlaces at.now }
    requires own { own < 2 ^ 31 }
    ensures value { IfOk result (λ branch. branch ≡ transformer_branch numbers.now at.now own) }
    ensures small { IfOk result IsBranch }
{
    let outward = stands_first(at.winding2.first);
    Ok(Branch {
        re: 0,
        im: 0,
        inner: at.winding1,
        ratio: facing(outward, ratio),
        r: sole(alloc, numbers.r)?,
        x: sole(alloc, numbers.x)?,
        from: own,
        own,
        outward,
        outer: outer_node(at.winding2),
    })
}
