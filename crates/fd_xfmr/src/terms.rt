// The contributions of a transformer.
ghost use Rattle.std.specs.Prelude.{◌≡◌, ◌+◌, ◌<◌, ◌≤◌, ◌++◌, ◌^◌, ◌↔◌, [], IfOk, IfErr, OnOk, All, length, vec_capacity};
ghost use Rattle.fd_system.specs.Contributions.{IsDivided, IsWithin};
ghost use Rattle.fd_system.specs.Equations.{AddsUp};
ghost use Rattle.fd_xfmr.specs.Leakage.{AreTaps, AreWithin, IsXfmr};
ghost use Rattle.fd_xfmr.specs.Transformer.{ArePlaces, IsBetween, branch_list, current_list, list_by, phase_at as place_of, phase_list, xfmr_list, xfmr_parts};

use crate::data::XfmrData;
use crate::leakage::{Coefficients, coefficients_at};
use crate::pairs::winding_pairs;
use fd_system::{
    Ends, NodeAt, NodePair, TapPair, Term, TermFault, add_complex, add_real, all_within, phase_pair,
};
use std::alloc::Global;

/// Leakage impedances at the taps are in whole numbers of this part of an ohm.
const PER_OHM: i128 = 10_000_000_000_000_000_000_000;

// three phases have at most 60 contributions: 20 each
const ROOM: usize = 64;

/// Where a phase of a transformer stands: the nodes that it joins at winding 1 and at winding 2, and its branch, whose current is
/// that of winding 2.
#[derive(Clone, Copy, Debug)]
pub struct PhaseAt {
    pub winding1: NodePair,
    pub winding2: NodePair,
    pub branch: NodeAt,
}

/// The contributions of a transformer at its taps between its ends, in rows of microamperes at its nodes and of microvolts at its
/// branches: they add up to its equations at every state (Kersting, three-phase transformer models; which nodes a phase joins, and
/// the rounding, are this profile's). Range exactly where one of them is past 2^54 units of 2^-40.
///
/// The data are in the ranges of the script profile, the taps from 0.5 to 2; each side of the ends has three nodes for three phases
/// and two nodes for one, and node numbers and the first branch are below 2^30.
pub fn xfmr_terms(
    alloc: Global,
    xfmr: &XfmrData,
    taps: TapPair,
    at: &Ends,
) -> Result<Vec<Term>, TermFault>
    requires xfmr { IsXfmr xfmr.now }
    requires taps { AreTaps taps }
    requires at { IsBetween xfmr.now.phases at.now }
    ensures list { IfOk result (λ v. v.items ≡ xfmr_list xfmr.now taps at.now) }
    ensures adds_up { IfOk result (λ v. AddsUp v.items (xfmr_parts xfmr.now taps at.now)) }
    ensures divided { IfOk result (λ v. All IsDivided v.items) }
    ensures few { IfOk result (λ v. length v.items ≤ 60) }
    ensures within { IfOk result (λ v. All IsWithin v.items) }
    ensures range { result ≡ Err TermFault.Range → ¬ All IsWithin (xfmr_list xfmr.now taps at.now) }
{
    let mut terms = Vec::with_capacity(alloc, ROOM)?;
    xfmr_terms_into(xfmr, taps, at, &mut terms)?;
    Ok(terms)
}

/// Puts the contributions of `xfmr_terms` in place of what a list with room for 64 holds. Takes no memory: Range is the only error,
/// exactly where `xfmr_terms` has it, and leaves the list empty. The list keeps its capacity.
pub fn xfmr_terms_into(
    xfmr: &XfmrData,
    taps: TapPair,
    at: &Ends,
    into: &mut Vec<Term>,
) -> Result<(), TermFault>
    requires xfmr { IsXfmr xfmr.now }
    requires taps { AreTaps taps }
    requires at { IsBetween xfmr.now.phases at.now }
    requires room { 64 ≤ vec_capacity into.old }
    ensures list { OnOk result (into.new.items ≡ xfmr_list xfmr.now taps at.now) }
    ensures adds_up { OnOk result (AddsUp into.new.items (xfmr_parts xfmr.now taps at.now)) }
    ensures divided { OnOk result (All IsDivided into.new.items) }
    ensures few { OnOk result (length into.new.items ≤ 60) }
    ensures within { OnOk result (All IsWithin into.new.items) }
    ensures range { result ≡ Err TermFault.Range ↔ ¬ All IsWithin (xfmr_list xfmr.now taps at.now) }
    ensures takes_no_memory { IfErr result (λ e. e ≡ TermFault.Range) }
    ensures empty { IfErr result (λ e. into.new.items ≡ []) }
    ensures capacity { vec_capacity into.new ≡ vec_capacity into.old }
{
    into.clear();
    add_terms(into, xfmr, taps, at);
    if all_within(into.as_slice()) {
        return Ok(());
    }
    into.clear();
    Err(TermFault::Range)
}

// Adds the contributions to an empty list.
fn add_terms(terms: &mut Vec<Term>, xfmr: &XfmrData, taps: TapPair, at: &Ends)
    requires xfmr { IsXfmr xfmr.now }
    requires taps { AreTaps taps }
    requires at { IsBetween xfmr.now.phases at.now }
    requires empty { terms.old.items ≡ [] }
    requires room { 64 ≤ vec_capacity terms.old }
    ensures list { terms.new.items ≡ xfmr_list xfmr.now taps at.now }
    ensures adds_up { AddsUp terms.new.items (xfmr_parts xfmr.now taps at.now) }
    ensures divided { All IsDivided terms.new.items }
    ensures few { length terms.new.items ≤ 60 }
    ensures capacity { vec_capacity terms.new ≡ vec_capacity terms.old }
{
    let numbers = coefficients_at(xfmr, taps);
    add_phases(terms, xfmr, at, &numbers);
}

// Adds those of all phases, by the numbers at the taps.
fn add_phases(terms: &mut Vec<Term>, xfmr: &XfmrData, at: &Ends, numbers: &Coefficients)
    requires xfmr { IsXfmr xfmr.now }
    requires at { IsBetween xfmr.now.phases at.now }
    requires numbers { AreWithin numbers.now }
    requires empty { terms.old.items ≡ [] }
    requires room { 64 ≤ vec_capacity terms.old }
    ensures list { terms.new.items ≡ list_by numbers.now xfmr.now at.now }
    ensures capacity { vec_capacity terms.new ≡ vec_capacity terms.old }
{
    for k in 0..xfmr.phases {
        add_phase(terms, &phase_at(xfmr, at, k), numbers);
    }
}

// The voltage equation of a phase, and the currents that leave its nodes.
fn add_phase(terms: &mut Vec<Term>, phase: &PhaseAt, numbers: &Coefficients)
    requires numbers { AreWithin numbers.now }
    requires phase { ArePlaces phase.now }
    requires room { length terms.old.items + 20 ≤ vec_capacity terms.old }
    ensures items { terms.new.items ≡ terms.old.items ++ phase_list numbers.now phase.now }
    ensures capacity { vec_capacity terms.new ≡ vec_capacity terms.old }
    ensures few { length terms.new.items ≤ length terms.old.items + 20 }
{
    add_branch(terms, numbers, phase);
    add_currents(terms, numbers, phase);
}

/// Where phase k of a transformer stands. Its data, ends and places are as `xfmr_terms` takes them, and k is below the phases.
pub fn phase_at(xfmr: &XfmrData, at: &Ends, k: u32) -> PhaseAt
    requires xfmr { IsXfmr xfmr.now }
    requires at { IsBetween xfmr.now.phases at.now }
    requires k_in { k < xfmr.now.phases }
    ensures place { result ≡ place_of xfmr.now at.now k }
    ensures small { ArePlaces result }
{
    let (first, second) = winding_pairs(xfmr);
    PhaseAt {
        winding1: phase_pair(&at.first, first, k),
        winding2: phase_pair(&at.second, second, k),
        branch: NodeAt::Node(at.branch + k),
    }
}

// The voltage equation of a phase.
fn add_branch(terms: &mut Vec<Term>, numbers: &Coefficients, phase: &PhaseAt)
    requires numbers { AreWithin numbers.now }
    requires phase { ArePlaces phase.now }
    requires room { length terms.old.items + 12 ≤ vec_capacity terms.old }
    ensures items { terms.new.items ≡ terms.old.items ++ branch_list numbers.now phase.now }
    ensures capacity { vec_capacity terms.new ≡ vec_capacity terms.old }
    ensures few { length terms.new.items ≤ length terms.old.items + 12 }
{
    let row = phase.branch;
    let (ratio, over) = (numbers.ratio, numbers.ratio_over);
    add_real(terms, row, phase.winding1.first, ratio, over);
    add_real(terms, row, phase.winding1.second, -ratio, over);
    add_real(terms, row, phase.winding2.first, -1, 1);
    add_real(terms, row, phase.winding2.second, 1, 1);
    add_complex(terms, row, row, -numbers.r, -numbers.x, PER_OHM);
}

// The currents that leave the nodes of a phase.
fn add_currents(terms: &mut Vec<Term>, numbers: &Coefficients, phase: &PhaseAt)
    requires numbers { AreWithin numbers.now }
    requires phase { ArePlaces phase.now }
    requires room { length terms.old.items + 8 ≤ vec_capacity terms.old }
    ensures items { terms.new.items ≡ terms.old.items ++ current_list numbers.now phase.now }
    ensures capacity { vec_capacity terms.new ≡ vec_capacity terms.old }
    ensures few { length terms.new.items ≤ length terms.old.items + 8 }
{
    let col = phase.branch;
    let (ratio, over) = (numbers.ratio, numbers.ratio_over);
    add_real(terms, phase.winding1.first, col, ratio, over);
    add_real(terms, phase.winding1.second, col, -ratio, over);
    add_real(terms, phase.winding2.first, col, -1, 1);
    add_real(terms, phase.winding2.second, col, 1, 1);
}
