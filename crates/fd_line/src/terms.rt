// The contributions of a line.
ghost use Rattle.std.specs.Prelude.{◌≡◌, ◌+◌, ◌*◌, ◌<◌, ◌≤◌, ◌++◌, nat_abs, ◌^◌, IfOk, length, vec_capacity, All};
ghost use Rattle.fd_system.specs.Contributions.{concat_below, IsDivided, IsWithin};
ghost use Rattle.fd_system.specs.Equations.{AddsUp};
ghost use Rattle.fd_system.specs.Terminals.{IsSide};
ghost use Rattle.fd_system.specs.Series.{drop_list};
ghost use Rattle.fd_line.specs.Totals.{IsLine, reactance_of, resistance_of};
ghost use Rattle.fd_line.specs.Line.{IsBetween, branch_row, charge_at, end_row, line_list, line_parts, phase_list, susceptance_of};

use crate::data::LineData;
use crate::totals::{capacitance, radians, reactance, resistance};
use fd_system::{
    Ends, NodeAt, NodesAt, Term, TermFault, add_drop, add_imaginary, add_real, all_within, node,
};
use std::alloc::{AllocError, Global};

/// Half of a radian per second times a farad has this many steps: 10^12 for the frequency times 10^15 for the capacitance.
const PER_HALF_CHARGE: i128 = 2_000_000_000_000_000_000_000_000_000;

// a phase has at most this many contributions: 16 in the row of its branch and 8 in that of each of its nodes
const MOST_OF_PHASE: usize = 32;

/// The contributions of a line between its ends, in rows of microamperes at its nodes and of microvolts at its branches: they add
/// up to the equations of the pi model at every state (Kersting, models of overhead and underground lines). Range exactly where
/// one of them is past 2^54 units of 2^-40.
///
/// The data are in the ranges of the script profile, each side of the ends has one node for each phase, and node numbers and
/// the first branch are below 2^30.
pub fn line_terms(alloc: Global, line: &LineData, at: &Ends) -> Result<Vec<Term>, TermFault>
    requires line { IsLine line.now }
    requires at { IsBetween line.now.phases at.now }
    ensures list { IfOk result (λ v. v.items ≡ line_list line.now at.now) }
    ensures adds_up { IfOk result (λ v. AddsUp v.items (line_parts line.now at.now)) }
    ensures divided { IfOk result (λ v. All IsDivided v.items) }
    ensures few { IfOk result (λ v. length v.items ≤ 32 * line.now.phases) }
    ensures within { IfOk result (λ v. All IsWithin v.items) }
    ensures range { result ≡ Err TermFault.Range → ¬ All IsWithin (line_list line.now at.now) }
{
    let terms = terms_of(alloc, line, at)?;
    if !all_within(&terms) {
        return Err(TermFault::Range);
    }
    Ok(terms)
}

fn terms_of(alloc: Global, line: &LineData, at: &Ends) -> Result<Vec<Term>, AllocError>
    requires line { IsLine line.now }
    requires at { IsBetween line.now.phases at.now }
    ensures list { IfOk result (λ v. v.items ≡ line_list line.now at.now) }
    ensures adds_up { IfOk result (λ v. AddsUp v.items (line_parts line.now at.now)) }
    ensures divided { IfOk result (λ v. All IsDivided v.items) }
    ensures few { IfOk result (λ v. length v.items ≤ 32 * line.now.phases) }
{
    let mut terms = Vec::with_capacity(alloc, MOST_OF_PHASE * line.phases as usize)?;
    for k in 0..line.phases {
        add_phase(&mut terms, line, at, k);
    }
    Ok(terms)
}

fn add_phase(terms: &mut Vec<Term>, line: &LineData, at: &Ends, k: u32)
    requires line { IsLine line.now }
    requires at { IsBetween line.now.phases at.now }
    requires k_in { k < line.now.phases }
    requires room { length terms.old.items + 32 ≤ vec_capacity terms.old }
    ensures items { terms.new.items ≡ terms.old.items ++ phase_list line.now at.now k }
    ensures capacity { vec_capacity terms.new ≡ vec_capacity terms.old }
    ensures few { length terms.new.items ≤ length terms.old.items + 32 }
{
    add_branch(terms, line, at, k);
    add_end(terms, line, at.branch, &at.first, 1, k);
    add_end(terms, line, at.branch, &at.second, -1, k);
}

// The voltage equation of phase k.
fn add_branch(terms: &mut Vec<Term>, line: &LineData, at: &Ends, k: u32)
    requires line { IsLine line.now }
    requires at { IsBetween line.now.phases at.now }
    requires k_in { k < line.now.phases }
    requires room { length terms.old.items + 16 ≤ vec_capacity terms.old }
    ensures items { terms.new.items ≡ terms.old.items ++ branch_row line.now at.now k }
    ensures capacity { vec_capacity terms.new ≡ vec_capacity terms.old }
    ensures few { length terms.new.items ≤ length terms.old.items + 16 }
{
    let row = NodeAt::Node(at.branch + k);
    add_real(terms, row, node(&at.first, k), 1, 1);
    add_real(terms, row, node(&at.second, k), -1, 1);
    add_drops(terms, line, at.branch, k);
}

// What the currents take from the voltage of phase k.
fn add_drops(terms: &mut Vec<Term>, line: &LineData, branch: u32, k: u32)
    requires line { IsLine line.now }
    requires branch { branch < 2 ^ 30 }
    requires k_in { k < line.now.phases }
    requires room { length terms.old.items + 12 ≤ vec_capacity terms.old }
    ensures items { terms.new.items ≡ terms.old.items ++ drop_list (resistance_of line.now) (reactance_of line.now) branch line.now.phases k }
    ensures capacity { vec_capacity terms.new ≡ vec_capacity terms.old }
    ensures few { length terms.new.items ≤ length terms.old.items + 12 }
{
    for m in 0..line.phases {
        let r = resistance(line, k, m);
        let x = reactance(line, k, m);
        add_drop(terms, branch, k, m, r, x);
    }
}

// The currents that leave node k of one end.
fn add_end(terms: &mut Vec<Term>, line: &LineData, branch: u32, nodes: &NodesAt, sign: i128, k: u32)
    requires line { IsLine line.now }
    requires branch { branch < 2 ^ 30 }
    requires side { IsSide line.now.phases nodes.now }
    requires k_in { k < line.now.phases }
    requires room { length terms.old.items + 8 ≤ vec_capacity terms.old }
    ensures items { terms.new.items ≡ terms.old.items ++ end_row line.now branch nodes.now sign k }
    ensures capacity { vec_capacity terms.new ≡ vec_capacity terms.old }
    ensures few { length terms.new.items ≤ length terms.old.items + 8 }
{
    let row = node(nodes, k);
    add_real(terms, row, NodeAt::Node(branch + k), sign, 1);
    add_charges(terms, line, nodes, k);
}

// What node k of one end draws by half of the capacitance.
fn add_charges(terms: &mut Vec<Term>, line: &LineData, nodes: &NodesAt, k: u32)
    requires line { IsLine line.now }
    requires side { IsSide line.now.phases nodes.now }
    requires k_in { k < line.now.phases }
    requires room { length terms.old.items + 6 ≤ vec_capacity terms.old }
    ensures items { terms.new.items ≡ terms.old.items ++ concat_below (charge_at line.now nodes.now k) line.now.phases }
    ensures capacity { vec_capacity terms.new ≡ vec_capacity terms.old }
    ensures few { length terms.new.items ≤ length terms.old.items + 6 }
{
    let row = node(nodes, k);
    for m in 0..line.phases {
        let charge = susceptance(line, k, m);
        add_imaginary(terms, row, node(nodes, m), charge, PER_HALF_CHARGE);
    }
}

/// omega C between phases k and m over the whole line, in whole 10^-27 siemens (Kersting, shunt admittance of lines): each end of the
/// pi model has half of it.
pub fn susceptance(line: &LineData, k: u32, m: u32) -> i128
    requires line { IsLine line.now }
    requires k_in { k < line.now.phases }
    requires m_in { m < line.now.phases }
    ensures value { result ≡ susceptance_of line.now k m }
    ensures within { nat_abs result ≤ 2 ^ 126 }
{
    radians(line) * capacitance(line, k, m)
}
