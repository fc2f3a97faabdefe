// The taps of elements.
ghost use Rattle.std.specs.Prelude.{◌≡◌, IfOk, drop};
ghost use Rattle.fd_network.specs.fd_devices.Scripted.{first_state, first_taps};
ghost use Rattle.fd_network.specs.fd_devices.Settings.{bank_count, tap_count};
ghost use Rattle.fd_sweep.specs.Ladders.{taps_from};

use fd_network::{Element, ElementName};
use fd_series::TapPair;
use indexmap::IndexMap;
use std::alloc::{AllocError, Global};

fn first_taps(taps: &[TapPair]) -> TapPair
    ensures { result ≡ first_taps taps.now }
{
    match taps.first() {
        Some(pair) => *pair,
        None => TapPair {
            first: 0,
            second: 0,
        },
    }
}

/// The first of these states of banks.
pub fn first_state(closed: &[bool]) -> bool
    ensures { result ≡ first_state closed.now }
{
    match closed.first() {
        Some(state) => *state,
        None => false,
    }
}

/// The taps behind those of an element.
fn taps_after<'a>(taps: &'a [TapPair], element: &Element) -> &'a [TapPair]
    ensures { result.now ≡ drop (tap_count element.now) taps.now }
{
    match (element, taps) {
        (Element::Transformer(_), [_, rest @ ..]) => rest,
        _ => taps,
    }
}

/// The states behind those of an element.
pub fn states_after<'a>(closed: &'a [bool], element: &Element) -> &'a [bool]
    ensures { result.now ≡ drop (bank_count element.now) closed.now }
{
    match (element, closed) {
        (Element::Capacitor(_), [_, rest @ ..]) => rest,
        _ => closed,
    }
}

/// For each element the taps that it would take, if it is a Transformer.
pub fn taps_of(
    alloc: Global,
    elements: &IndexMap<ElementName, Element>,
    taps: &[TapPair],
) -> Result<Vec<TapPair>, AllocError>
    ensures { IfOk result (λ all. all.items ≡ taps_from elements.now.entries taps.now) }
{
    let mut all = Vec::new(alloc);
    let mut left = taps;
    let entries = elements.as_slice();
    for place in 0..entries.len() {
        let (_, element) = entries.get_index(place).unwrap();
        all.push(first_taps(left))?;
        left = taps_after(left, element);
    }
    Ok(all)
}
