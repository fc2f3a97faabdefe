// The branches of the source.
ghost use Rattle.std.specs.Prelude.{◌≡◌, ◌≤◌, ◌<◌, ◌*◌, ◌+◌, ◌^◌, nat_abs, length, IfOk, ℤ, List};
ghost use Rattle.fd_source.specs.Equations.{IsPlaced, IsSource, reactance_of, resistance_of, source_constants};
ghost use Rattle.fd_source.specs.Phasors.{volts_im, volts_re};
ghost use Rattle.fd_rungs.specs.Bounds.{IsRung};
ghost use Rattle.fd_rungs.specs.Branches.{IsBranch, IsCoefficients};
ghost use Rattle.fd_rungs.specs.Elements.{row_of, source_branch, source_branches};

use crate::branch::{Branch, Numbers, Rung};
use crate::coefficients::push_ohms;
use crate::state::part;
use crate::terminals::{node_at, to_ground};
use dss_model::{Ends, TermFault};
use fd_pattern::NodeAt;
use fd_source::{SourceData, impedance, source_terms};
use std::alloc::{AllocError, Global};

fn resistances(alloc: Global, source: &SourceData, k: u32) -> Result<Numbers, AllocError>
    requires source { IsSource source.now }
    ensures value { IfOk result (λ row. row ≡ row_of (resistance_of source.now k) source.now.phases) }
    ensures small { IfOk result (λ row. IsCoefficients source.now.phases row) }
{
    let mut row = Vec::new(alloc);
    for m in 0..source.phases {
        push_ohms(&mut row, impedance(source, k, m).0)?;
    }
    Ok(Numbers::new(row))
}

fn reactances(alloc: Global, source: &SourceData, k: u32) -> Result<Numbers, AllocError>
    requires source { IsSource source.now }
    ensures value { IfOk result (λ row. row ≡ row_of (reactance_of source.now k) source.now.phases) }
    ensures small { IfOk result (λ row. IsCoefficients source.now.phases row) }
{
    let mut row = Vec::new(alloc);
    for m in 0..source.phases {
        push_ohms(&mut row, impedance(source, k, m).1)?;
    }
    Ok(Numbers::new(row))
}

// The real part of the voltage of phase k.
fn re_volts(_source: &SourceData, volts: &[i128], k: u32) -> i128
    requires source { IsSource _source.now }
    requires volts { volts.now ≡ source_constants _source.now }
    requires k_in { k < _source.now.phases }
    ensures value { result ≡ volts_re _source.now k }
    ensures small { nat_abs result ≤ 2 ^ 41 }
{
    part(volts, 2 * k as usize)
}

// The imaginary part.
fn im_volts(_source: &SourceData, volts: &[i128], k: u32) -> i128
    requires source { IsSource _source.now }
    requires volts { volts.now ≡ source_constants _source.now }
    requires k_in { k < _source.now.phases }
    ensures value { result ≡ volts_im _source.now k }
    ensures small { nat_abs result ≤ 2 ^ 41 }
{
    part(volts, 2 * k as usize + 1)
}

fn source_branch(
    alloc: Global,
    source: &SourceData,
    at: &Ends,
    volts: &[i128],
    k: u32,
) -> Result<Branch, AllocError>
    requires source { IsSource source.now }
    requires at { IsPlaced source.now.phases at.now }
    requires volts { volts.now ≡ source_constants source.now }
    requires k_in { k < source.now.phases }
    ensures value { IfOk result (λ branch. branch ≡ source_branch source.now at.now k) }
    ensures small { IfOk result IsBranch }
{
    Ok(Branch {
        re: re_volts(source, volts, k),
        im: im_volts(source, volts, k),
        inner: to_ground(NodeAt::Ground),
        ratio: 0,
        r: resistances(alloc, source, k)?,
        x: reactances(alloc, source, k)?,
        from: at.branch,
        own: at.branch + k,
        outward: true,
        outer: node_at(&at.first, k),
    })
}

// The voltages of a source whose contributions are in range.
fn volts(alloc: Global, source: &SourceData, at: &Ends) -> Result<Vec<i128>, AllocError>
    requires source { IsSource source.now }
    requires at { IsPlaced source.now.phases at.now }
    ensures { IfOk result (λ volts. volts.items ≡ source_constants source.now) }
{
    match source_terms(alloc, source, at) {
        Ok(made) => Ok(made.constants),
        Err(TermFault::Range) | Err(TermFault::NoMemory) => Err(AllocError),
    }
}

/// The branches of the source: a voltage behind an impedance. A source whose contributions are out of range has no
/// network, and is answered as want of memory.
pub fn source_rung(alloc: Global, source: &SourceData, at: &Ends) -> Result<Rung, AllocError>
    requires source { IsSource source.now }
    requires at { IsPlaced source.now.phases at.now }
    ensures value { IfOk result (λ rung. rung.branches.items ≡ source_branches source.now at.now) }
    ensures small { IfOk result IsRung }
{
    let volts = volts(alloc, source, at)?;
    let mut branches = Vec::new(alloc);
    for k in 0..source.phases {
        branches.push(source_branch(alloc, source, at, &volts, k)?)?;
    }
    Ok(Rung { branches })
}
