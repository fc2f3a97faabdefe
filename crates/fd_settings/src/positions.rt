// The positions with which a Solve starts.
ghost use Rattle.std.specs.Prelude.{◌≡◌, ◌++◌, length, slice_get, IfOk, OnOk};
ghost use Rattle.fd_settings.specs.Snapshot.{is_closed as is_state_closed};
ghost use Rattle.fd_settings.specs.Positions.{NextLaw, is_set as is_set_at, next_closed, next_closed_of, next_pair as pair_of, next_state as state_of, next_tap as tap_of, next_taps, next_taps_of};

use fd_devices::{
    BankState, BankStates, Capacitor, Circuit, Element, Positions, TapPair, Taps, Transformer,
    Winding,
};
use std::alloc::{AllocError, Global};

/// The positions with which a Solve starts, after `Circuit::apply` took its command: a tap or state that the script set since the
/// Solve before, or whose number in order `before` does not have, is the script's; every other one is that of `before`.
///
/// # Errors
/// `AllocError` where the memory is refused.
pub fn next_positions(
    alloc: Global,
    circuit: &Circuit,
    before: &Positions,
) -> Result<Positions, AllocError>
    ensures taps { IfOk result (λ p. p.taps ≡ next_taps circuit.now.solves circuit.now.elements before.now.taps) }
    ensures closed { IfOk result (λ p. p.closed ≡ next_closed circuit.now.solves circuit.now.elements before.now.closed) }
{
    let solves = circuit.solves();
    let mut taps = Vec::new(alloc);
    let mut closed = Vec::new(alloc);
    let entries = circuit.elements().as_slice();
    for place in 0..entries.len() {
        let (_, element) = entries.get_index(place).unwrap();
        add_taps(&mut taps, solves, element, before.taps.as_slice())?;
        add_state(&mut closed, solves, element, before.closed.as_slice())?;
    }
    Ok(Positions {
        taps: Taps::new(taps),
        closed: BankStates::new(closed),
    })
}

// The taps of a transformer, whose number in order is that of the taps so far.
fn add_taps(
    taps: &mut Vec<TapPair>,
    solves: u32,
    element: &Element,
    before: &[TapPair],
) -> Result<(), AllocError>
    ensures { OnOk result (taps.new.items ≡ taps.old.items ++ next_taps_of solves element.now (slice_get before.now (length taps.old.items))) }
{
    if let Element::Transformer(xfmr) = element {
        let pair = next_pair(solves, xfmr, before.get(taps.len()).copied());
        taps.push(pair)?;
    }
    Ok(())
}

// Whether a bank is closed, whose number in order is that of the states so far.
fn add_state(
    closed: &mut Vec<bool>,
    solves: u32,
    element: &Element,
    before: &[bool],
) -> Result<(), AllocError>
    ensures { OnOk result (closed.new.items ≡ closed.old.items ++ next_closed_of solves element.now (slice_get before.now (length closed.old.items))) }
{
    if let Element::Capacitor(bank) = element {
        let state = next_state(solves, bank, before.get(closed.len()).copied());
        closed.push(state)?;
    }
    Ok(())
}

fn next_pair(solves: u32, xfmr: &Transformer, before: Option<TapPair>) -> TapPair
    ensures { result ≡ pair_of solves xfmr.now before }
{
    match before {
        None => TapPair {
            first: xfmr.first.tap,
            second: xfmr.second.tap,
        },
        Some(pair) => TapPair {
            first: next_tap(solves, &xfmr.first, pair.first),
            second: next_tap(solves, &xfmr.second, pair.second),
        },
    }
}

fn next_tap(solves: u32, winding: &Winding, before: u32) -> u32
    ensures { result ≡ tap_of solves winding.now before }
{
    if is_set(solves, winding.set_at) {
        winding.tap
    } else {
        before
    }
}

fn next_state(solves: u32, bank: &Capacitor, before: Option<bool>) -> bool
    ensures { result ≡ state_of solves bank.now before }
{
    match before {
        Some(closed) if !is_set(solves, bank.set_at) => closed,
        _ => is_closed(bank.states),
    }
}

// Whether a bank with this state in the script is closed.
fn is_closed(state: BankState) -> bool
    ensures { result ≡ is_state_closed state }
{
    match state {
        BankState::Open => false,
        BankState::Closed => true,
    }
}

// Whether a value was set since the Solve before.
fn is_set(solves: u32, set_at: u32) -> bool
    ensures { result ≡ is_set_at solves set_at }
{
    solves > 0 && set_at == solves - 1
}

/// The positions with which a Solve starts are as many as the elements have; the taps are in range where the elements and those of
/// before are; and where nothing was before, all are the script's.
pub fn next_law()
    ensures { NextLaw }
{}
