// The contributions of a capacitor bank.
ghost use Rattle.std.specs.Prelude.{◌≡◌, ◌+◌, ◌<◌, ◌≤◌, ◌^◌, ◌++◌, ◌↔◌, [], ℤ, pos, ◌<ℤ◌, ◌≤ℤ◌, OnOk, IfOk, IfErr, All, length, vec_capacity};
ghost use Rattle.fd_system.specs.fd_exact.Ranges.{UpTo};
ghost use Rattle.fd_system.specs.Contributions.{IsDivided, IsSmall, IsWithin, concat_below};
ghost use Rattle.fd_system.specs.Equations.{AddsUp};
ghost use Rattle.fd_system.specs.Terminals.{IsSide, node_count};
ghost use Rattle.fd_cap.specs.Capacitor.{IsCap, cap_list, cap_pair, cap_parts, cap_power, list_at, phase_list, volts_squared as squared_volts};

use crate::data::CapData;
use crate::numbers::{power, volts_squared};
use fd_system::{Ends, NodePair, Term, TermFault, add_shunt, all_within, phase_pair, phase_pairs};
use std::alloc::Global;

// three phases have at most 24 contributions, and are added in room for 16 each
const ROOM: usize = 64;

/// The contributions of a capacitor bank at the first side of its ends, in rows of microamperes at its nodes: they add up to its
/// equations at every state (Kersting, shunt capacitor banks). An open bank has none. Range exactly where one of them is past 2^54
/// units of 2^-40.
///
/// The data are in the ranges of the script profile; the first side has three nodes for three phases and two for one, with
/// numbers below 2^31 - 1. The second side and the branch don't count.
pub fn cap_terms(
    alloc: Global,
    cap: &CapData,
    closed: bool,
    at: &Ends,
) -> Result<Vec<Term>, TermFault>
    requires cap { IsCap cap.now }
    requires at { IsSide (node_count cap.now.phases) at.now.first }
    ensures list { IfOk result (λ v. v.items ≡ cap_list cap.now closed at.now) }
    ensures adds_up { IfOk result (λ v. AddsUp v.items (cap_parts cap.now closed at.now)) }
    ensures divided { IfOk result (λ v. All IsDivided v.items) }
    ensures few { IfOk result (λ v. length v.items ≤ 24) }
    ensures within { IfOk result (λ v. All IsWithin v.items) }
    ensures range { result ≡ Err TermFault.Range → ¬ All IsWithin (cap_list cap.now closed at.now) }
{
    let mut terms = Vec::with_capacity(alloc, ROOM)?;
    cap_terms_into(cap, closed, at, &mut terms)?;
    Ok(terms)
}

/// Puts the contributions of `cap_terms` in place of what a list with room for 64 holds. Takes no memory: Range is the only error,
/// exactly where `cap_terms` has it, and leaves the list empty. The list keeps its capacity.
pub fn cap_terms_into(
    cap: &CapData,
    closed: bool,
    at: &Ends,
    into: &mut Vec<Term>,
) -> Result<(), TermFault>
    requires cap { IsCap cap.now }
    requires at { IsSide (node_count cap.now.phases) at.now.first }
    requires room { 64 ≤ vec_capacity into.old }
    ensures list { OnOk result (into.new.items ≡ cap_list cap.now closed at.now) }
    ensures adds_up { OnOk result (AddsUp into.new.items (cap_parts cap.now closed at.now)) }
    ensures divided { OnOk result (All IsDivided into.new.items) }
    ensures few { OnOk result (length into.new.items ≤ 24) }
    ensures within { OnOk result (All IsWithin into.new.items) }
    ensures range { result ≡ Err TermFault.Range ↔ ¬ All IsWithin (cap_list cap.now closed at.now) }
    ensures takes_no_memory { IfErr result (λ e. e ≡ TermFault.Range) }
    ensures empty { IfErr result (λ e. into.new.items ≡ []) }
    ensures capacity { vec_capacity into.new ≡ vec_capacity into.old }
{
    into.clear();
    add_terms(into, cap, closed, at);
    if all_within(into.as_slice()) {
        return Ok(());
    }
    into.clear();
    Err(TermFault::Range)
}

// Adds the contributions to an empty list.
fn add_terms(terms: &mut Vec<Term>, cap: &CapData, closed: bool, at: &Ends)
    requires cap { IsCap cap.now }
    requires at { IsSide (node_count cap.now.phases) at.now.first }
    requires empty { terms.old.items ≡ [] }
    requires room { 64 ≤ vec_capacity terms.old }
    ensures list { terms.new.items ≡ cap_list cap.now closed at.now }
    ensures adds_up { AddsUp terms.new.items (cap_parts cap.now closed at.now) }
    ensures divided { All IsDivided terms.new.items }
    ensures few { length terms.new.items ≤ 24 }
    ensures capacity { vec_capacity terms.new ≡ vec_capacity terms.old }
{
    add_where_closed(terms, cap, closed, at);
}

fn add_where_closed(terms: &mut Vec<Term>, cap: &CapData, closed: bool, at: &Ends)
    requires cap { IsCap cap.now }
    requires at { IsSide (node_count cap.now.phases) at.now.first }
    requires empty { terms.old.items ≡ [] }
    requires room { 64 ≤ vec_capacity terms.old }
    ensures list { terms.new.items ≡ cap_list cap.now closed at.now }
    ensures capacity { vec_capacity terms.new ≡ vec_capacity terms.old }
{
    if closed {
        add_phases(terms, cap, at);
    }
}

// Adds those of all phases of a closed bank.
fn add_phases(terms: &mut Vec<Term>, cap: &CapData, at: &Ends)
    requires cap { IsCap cap.now }
    requires at { IsSide (node_count cap.now.phases) at.now.first }
    requires empty { terms.old.items ≡ [] }
    requires room { 64 ≤ vec_capacity terms.old }
    ensures list { terms.new.items ≡ concat_below (list_at cap.now at.now) cap.now.phases }
    ensures capacity { vec_capacity terms.new ≡ vec_capacity terms.old }
{
    for k in 0..cap.phases {
        add_phase(terms, cap, &pair_at(cap, at, k));
    }
}

// The nodes that phase k joins.
fn pair_at(cap: &CapData, at: &Ends, k: u32) -> NodePair
    requires cap { IsCap cap.now }
    requires at { IsSide (node_count cap.now.phases) at.now.first }
    requires k_in { k < cap.now.phases }
    ensures pair { result ≡ cap_pair cap.now at.now k }
    ensures first_small { IsSmall result.first }
    ensures second_small { IsSmall result.second }
{
    phase_pair(&at.first, phase_pairs(cap.phases, cap.conn), k)
}

// The current that a phase draws at its first node and gives back at its second.
fn add_phase(terms: &mut Vec<Term>, cap: &CapData, pair: &NodePair)
    requires cap { IsCap cap.now }
    requires first { IsSmall pair.now.first }
    requires second { IsSmall pair.now.second }
    requires room { length terms.old.items + 16 ≤ vec_capacity terms.old }
    ensures items { terms.new.items ≡ terms.old.items ++ phase_list cap.now pair.now }
    ensures capacity { vec_capacity terms.new ≡ vec_capacity terms.old }
    ensures few { length terms.new.items ≤ length terms.old.items + 16 }
{
    let (charge, over) = admittance(cap);
    add_shunt(terms, pair, 0, charge, over);
}

/// The admittance j Q / V^2 of a phase of a capacitor bank in siemens, as its imaginary part over its denominator (Kersting, shunt
/// capacitor banks): Q is the rated reactive power of a phase and V its nominal voltage.
pub fn admittance(cap: &CapData) -> (i128, i128)
    requires { IsCap cap.now }
    ensures num { result.0 ≡ cap_power cap.now }
    ensures den { result.1 ≡ pos (squared_volts cap.now) }
    ensures within { UpTo (10 ^ 20) result.0 }
    ensures positive { pos 0 <ℤ result.1 }
    ensures most { result.1 ≤ℤ pos (10 ^ 32) }
{
    (power(cap), volts_squared(cap) as i128)
}
