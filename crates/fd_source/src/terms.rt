// The contributions and constants of a source.
ghost use Rattle.std.specs.Prelude.{◌≡◌, ◌+◌, ◌*◌, ◌<◌, ◌≤◌, ◌++◌, ◌^◌, nat_abs, OnOk, IfOk, length, vec_capacity, All};
ghost use Rattle.fd_system.specs.Contributions.{IsDivided, IsWithin};
ghost use Rattle.fd_system.specs.System.{Represents};
ghost use Rattle.fd_system.specs.Series.{drop_list};
ghost use Rattle.fd_system.specs.fd_exact.Ranges.{UpTo};
ghost use Rattle.fd_source.specs.Equations.{IsPlaced, IsSource, ohms_by, phase_constants, phase_list, reactance_of, resistance_of, stamp_from, source_constants, source_list, source_parts};

use crate::data::{SourceData, SourceTerms};
use crate::voltage::phase_voltage;
use fd_system::{
    Ends, NodeAt, Term, TermFault, add_drop, add_real, all_within, floor_of_product, node, thirds,
};
use std::alloc::{AllocError, Global};

// a phase has at most this many contributions: 14 in the row of its branch and 2 in that of its node
const MOST_OF_PHASE: usize = 16;

/// The contributions and constants of a source at its nodes, in rows of microamperes at its nodes and of microvolts at its branches:
/// they add up to its equations, a voltage behind an impedance, at every state. Range exactly where a contribution is past 2^54
/// units of 2^-40.
///
/// The voltage is from 0 to 2 x 10^12 microvolt, the angle from -360 to 360 degrees, each part of the impedance from 0 to 3 x 10^4 ohm;
/// there is one node for each phase, and node numbers and the first branch are below 2^30.
pub fn source_terms(alloc: Global, source: &SourceData, at: &Ends) -> Result<SourceTerms, TermFault>
    requires source { IsSource source.now }
    requires at { IsPlaced source.now.phases at.now }
    ensures terms { IfOk result (λ s. s.terms.items ≡ source_list source.now at.now) }
    ensures constants { IfOk result (λ s. s.constants.items ≡ source_constants source.now) }
    ensures represents { IfOk result
        (λ s. Represents (stamp_from at.now s.constants.items s.terms.items) (source_parts source.now at.now)) }
    ensures divided { IfOk result (λ s. All IsDivided s.terms.items) }
    ensures few { IfOk result (λ s. length s.terms.items ≤ 16 * source.now.phases) }
    ensures within { IfOk result (λ s. All IsWithin s.terms.items) }
    ensures range { result ≡ Err TermFault.Range → ¬ All IsWithin (source_list source.now at.now) }
{
    let terms = terms_of(alloc, source, at)?;
    if !all_within(&terms) {
        return Err(TermFault::Range);
    }
    let constants = constants_of(alloc, source)?;
    Ok(SourceTerms { terms, constants })
}

// The voltages of the phases.
fn constants_of(alloc: Global, source: &SourceData) -> Result<Vec<i128>, AllocError>
    requires { IsSource source.now }
    ensures { IfOk result (λ v. v.items ≡ source_constants source.now) }
{
    let mut constants = Vec::new(alloc);
    for k in 0..source.phases {
        add_voltage(&mut constants, source, k)?;
    }
    Ok(constants)
}

fn add_voltage(constants: &mut Vec<i128>, source: &SourceData, k: u32) -> Result<(), AllocError>
    requires source { IsSource source.now }
    requires k_in { k < source.now.phases }
    ensures { OnOk result (constants.new.items ≡ constants.old.items ++ phase_constants source.now k) }
{
    let (re, im) = phase_voltage(source, k);
    constants.push(re)?;
    constants.push(im)?;
    Ok(())
}

fn terms_of(alloc: Global, source: &SourceData, at: &Ends) -> Result<Vec<Term>, AllocError>
    requires source { IsSource source.now }
    requires at { IsPlaced source.now.phases at.now }
    ensures list { IfOk result (λ v. v.items ≡ source_list source.now at.now) }
    ensures divided { IfOk result (λ v. All IsDivided v.items) }
    ensures few { IfOk result (λ v. length v.items ≤ 16 * source.now.phases) }
{
    let mut terms = Vec::with_capacity(alloc, MOST_OF_PHASE * source.phases as usize)?;
    for k in 0..source.phases {
        add_phase(&mut terms, source, at, k);
    }
    Ok(terms)
}

// The voltage equation of phase k, and the current that enters its node.
fn add_phase(terms: &mut Vec<Term>, source: &SourceData, at: &Ends, k: u32)
    requires source { IsSource source.now }
    requires at { IsPlaced source.now.phases at.now }
    requires k_in { k < source.now.phases }
    requires room { length terms.old.items + 16 ≤ vec_capacity terms.old }
    ensures items { terms.new.items ≡ terms.old.items ++ phase_list source.now at.now k }
    ensures capacity { vec_capacity terms.new ≡ vec_capacity terms.old }
    ensures few { length terms.new.items ≤ length terms.old.items + 16 }
{
    let (row, col) = (NodeAt::Node(at.branch + k), node(&at.first, k));
    add_real(terms, row, col, -1, 1);
    add_drops(terms, source, at.branch, k);
    add_real(terms, col, row, -1, 1);
}

// What the currents take from the voltage of phase k.
fn add_drops(terms: &mut Vec<Term>, source: &SourceData, branch: u32, k: u32)
    requires source { IsSource source.now }
    requires branch { branch < 2 ^ 30 }
    requires k_in { k < source.now.phases }
    requires room { length terms.old.items + 12 ≤ vec_capacity terms.old }
    ensures items { terms.new.items ≡ terms.old.items ++ drop_list (resistance_of source.now) (reactance_of source.now) branch source.now.phases k }
    ensures capacity { vec_capacity terms.new ≡ vec_capacity terms.old }
    ensures few { length terms.new.items ≤ length terms.old.items + 12 }
{
    for m in 0..source.phases {
        let (r, x) = impedance(source, k, m);
        add_drop(terms, branch, k, m, r, x);
    }
}

/// The impedance r + j x between phases k and m of a source, both in whole 10^-12 ohm and rounded down (Kersting, sequence impedances;
/// the rounding is this profile's).
pub fn impedance(source: &SourceData, k: u32, m: u32) -> (i128, i128)
    requires source { IsSource source.now }
    ensures r { result.0 ≡ resistance_of source.now k m }
    ensures x { result.1 ≡ reactance_of source.now k m }
    ensures r_within { nat_abs result.0 ≤ 10 ^ 30 }
    ensures x_within { nat_abs result.1 ≤ 10 ^ 30 }
{
    let ohms = &source.ohms;
    (entry(ohms.r1, ohms.r0, k, m), entry(ohms.x1, ohms.x0, k, m))
}

// The entry in row k and column m by sequence values in 10^-9 ohm, rounded down to 10^-12 ohm.
fn entry(z1: i128, z0: i128, k: u32, m: u32) -> i128
    requires z1 { UpTo (3 * 10 ^ 13) z1 }
    requires z0 { UpTo (3 * 10 ^ 13) z0 }
    ensures value { result ≡ ohms_by z1 z0 k m }
    ensures within { nat_abs result ≤ 10 ^ 30 }
{
    floor_of_product(thirds(z1, z0, k, m), 1_000, 3)
}
