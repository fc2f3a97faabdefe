// The branches of a Line, and its charging.
ghost use Rattle.std.specs.Prelude.{◌≡◌, ◌≤◌, ◌<◌, ◌*◌, ◌+◌, ◌++◌, ◌^◌, nat_abs, length, IfOk, OnOk, All};
ghost use Rattle.fd_pattern.specs.fd_system.Contributions.{concat_below};
ghost use Rattle.fd_pattern.specs.fd_system.Terminals.{IsSide};
ghost use Rattle.fd_line.specs.Line.{IsBetween, susceptance_of};
ghost use Rattle.fd_line.specs.Totals.{IsLine, reactance_of, resistance_of};
ghost use Rattle.fd_rungs.specs.Bounds.{IsRung};
ghost use Rattle.fd_rungs.specs.Branches.{IsBranch, IsCoefficients, IsShunt};
ghost use Rattle.fd_rungs.specs.Numbers.{IsSmallCoefficient, coefficient};
ghost use Rattle.fd_rungs.specs.Elements.{charge_of, charges_of, each_below, line_branch, line_branches, line_shunts, row_of};

use crate::branch::{Branch, Numbers, Rung, Shunt};
use crate::coefficients::{coefficient, push_ohms};
use crate::terminals::{node_at, to_ground};
use dss_model::{Ends, NodesAt};
use fd_line::{LineData, reactance, resistance, susceptance};
use std::alloc::{AllocError, Global};

/// Half of a radian per second times a farad has this many steps: 10^12 for the frequency times 10^15 for the capacitance.
const PER_HALF_CHARGE: u128 = 2_000_000_000_000_000_000_000_000_000;

/// What a coefficient of 1 is in whole 2^-40.
const COEF_PER_ONE: i128 = 1_099_511_627_776;

fn resistances(alloc: Global, line: &LineData, k: u32) -> Result<Numbers, AllocError>
    requires line { IsLine line.now }
    requires k_in { k < line.now.phases }
    ensures value { IfOk result (λ row. row ≡ row_of (resistance_of line.now k) line.now.phases) }
    ensures small { IfOk result (λ row. IsCoefficients line.now.phases row) }
{
    let mut row = Vec::new(alloc);
    for m in 0..line.phases {
        push_ohms(&mut row, resistance(line, k, m))?;
    }
    Ok(Numbers::new(row))
}

fn reactances(alloc: Global, line: &LineData, k: u32) -> Result<Numbers, AllocError>
    requires line { IsLine line.now }
    requires k_in { k < line.now.phases }
    ensures value { IfOk result (λ row. row ≡ row_of (reactance_of line.now k) line.now.phases) }
    ensures small { IfOk result (λ row. IsCoefficients line.now.phases row) }
{
    let mut row = Vec::new(alloc);
    for m in 0..line.phases {
        push_ohms(&mut row, reactance(line, k, m))?;
    }
    Ok(Numbers::new(row))
}

// Phase k between the nodes of an inner and an outer end.
fn line_branch(
    alloc: Global,
    line: &LineData,
    inner: &NodesAt,
    outer: &NodesAt,
    from: u32,
    outward: bool,
    k: u32,
) -> Result<Branch, AllocError>
    requires line { IsLine line.now }
    requires inner { IsSide line.now.phases inner.now }
    requires outer { IsSide line.now.phases outer.now }
    requires from { from < 2 ^ 30 }
    requires k_in { k < line.now.phases }
    ensures value { IfOk result (λ branch. branch ≡ line_branch line.now inner.now outer.now from outward k) }
    ensures small { IfOk result IsBranch }
{
    Ok(Branch {
        re: 0,
        im: 0,
        inner: to_ground(node_at(inner, k)),
        ratio: COEF_PER_ONE,
        r: resistances(alloc, line, k)?,
        x: reactances(alloc, line, k)?,
        from,
        own: from + k,
        outward,
        outer: node_at(outer, k),
    })
}

// All phases.
fn branches_between(
    alloc: Global,
    line: &LineData,
    inner: &NodesAt,
    outer: &NodesAt,
    from: u32,
    outward: bool,
) -> Result<Rung, AllocError>
    requires line { IsLine line.now }
    requires inner { IsSide line.now.phases inner.now }
    requires outer { IsSide line.now.phases outer.now }
    requires from { from < 2 ^ 30 }
    ensures value { IfOk result (λ rung. rung.branches.items ≡ each_below (line_branch line.now inner.now outer.now from outward) line.now.phases) }
    ensures small { IfOk result IsRung }
{
    let mut branches = Vec::new(alloc);
    for k in 0..line.phases {
        branches.push(line_branch(alloc, line, inner, outer, from, outward, k)?)?;
    }
    Ok(Rung { branches })
}

/// The branches of a Line that is taken from its first end or from its second (Kersting, series impedance of lines).
pub fn line_rung(
    alloc: Global,
    line: &LineData,
    at: &Ends,
    from_first: bool,
) -> Result<Rung, AllocError>
    requires line { IsLine line.now }
    requires at { IsBetween line.now.phases at.now }
    ensures value { IfOk result (λ rung. rung.branches.items ≡ line_branches line.now at.now from_first) }
    ensures small { IfOk result IsRung }
{
    if from_first {
        branches_between(alloc, line, &at.first, &at.second, at.branch, true)
    } else {
        branches_between(alloc, line, &at.second, &at.first, at.branch, false)
    }
}

// Half of omega C between phases k and m, in whole 2^-40 siemens.
fn half_charge(line: &LineData, k: u32, m: u32) -> i128
    requires line { IsLine line.now }
    requires k_in { k < line.now.phases }
    requires m_in { m < line.now.phases }
    ensures value { result ≡ coefficient (susceptance_of line.now k m) (2 * 10 ^ 27) }
    ensures small { IsSmallCoefficient result }
{
    coefficient(susceptance(line, k, m), PER_HALF_CHARGE)
}

// Half of the charging at node k of one end, by the voltage of phase m there.
fn charge_of(line: &LineData, nodes: &NodesAt, k: u32, m: u32) -> Shunt
    requires line { IsLine line.now }
    requires nodes { IsSide line.now.phases nodes.now }
    requires k_in { k < line.now.phases }
    requires m_in { m < line.now.phases }
    ensures value { result ≡ charge_of line.now nodes.now k m }
    ensures small { IsShunt result }
{
    Shunt {
        charge: half_charge(line, k, m),
        across: to_ground(node_at(nodes, m)),
        into: to_ground(node_at(nodes, k)),
    }
}

fn add_charges_at(
    shunts: &mut Vec<Shunt>,
    line: &LineData,
    nodes: &NodesAt,
    k: u32,
) -> Result<(), AllocError>
    requires line { IsLine line.now }
    requires nodes { IsSide line.now.phases nodes.now }
    requires k_in { k < line.now.phases }
    requires shunts { All IsShunt shunts.old.items }
    ensures value { OnOk result (shunts.new.items ≡ shunts.old.items ++ each_below (charge_of line.now nodes.now k) line.now.phases) }
    ensures small { OnOk result (All IsShunt shunts.new.items) }
    ensures few { OnOk result (length shunts.new.items ≤ length shunts.old.items + 3) }
{
    for m in 0..line.phases {
        shunts.push(charge_of(line, nodes, k, m))?;
    }
    Ok(())
}

fn add_charges(shunts: &mut Vec<Shunt>, line: &LineData, nodes: &NodesAt) -> Result<(), AllocError>
    requires line { IsLine line.now }
    requires nodes { IsSide line.now.phases nodes.now }
    requires shunts { All IsShunt shunts.old.items }
    ensures value { OnOk result (shunts.new.items ≡ shunts.old.items ++ charges_of line.now nodes.now) }
    ensures small { OnOk result (All IsShunt shunts.new.items) }
    ensures few { OnOk result (length shunts.new.items ≤ length shunts.old.items + 9) }
{
    for k in 0..line.phases {
        add_charges_at(shunts, line, nodes, k)?;
    }
    Ok(())
}

/// Adds the charging of a Line at both ends (Kersting, shunt admittance of lines).
pub fn add_line_shunts(
    shunts: &mut Vec<Shunt>,
    line: &LineData,
    at: &Ends,
) -> Result<(), AllocError>
    requires line { IsLine line.now }
    requires at { IsBetween line.now.phases at.now }
    requires shunts { All IsShunt shunts.old.items }
    ensures value { OnOk result (shunts.new.items ≡ shunts.old.items ++ line_shunts line.now at.now) }
    ensures small { OnOk result (All IsShunt shunts.new.items) }
    ensures few { OnOk result (length shunts.new.items ≤ length shunts.old.items + 18) }
{
    add_charges(shunts, line, &at.first)?;
    add_charges(shunts, line, &at.second)
}
