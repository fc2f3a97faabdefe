// What is kept of elements.
ghost use Rattle.std.specs.Prelude.{◌≡◌, ◌+◌, ◌*◌, ◌<◌, ◌≤◌, ◌^◌, ◌++◌, [], ◌∷◌, IfOk, IfErr, OnOk, All, Err};
ghost use Rattle.dss_layout.specs.dss_model.Ranges.{IsOneOf};
ghost use Rattle.dss_layout.specs.dss_model.InRange.{ElementInRange};
ghost use Rattle.dss_layout.specs.Layout.{size_of};
ghost use Rattle.fd_devices.specs.Building.{DeviceFits, IsModest};
ghost use Rattle.fd_devices.specs.Devices.{device_stamp};
ghost use Rattle.fd_xfmr.specs.fd_system.Contributions.{IsSmall};
ghost use Rattle.fd_xfmr.specs.fd_system.Stamps.{HasRoom, IsRoomSame, stamp_of};
ghost use Rattle.fd_pattern.specs.Patterns.{IsInside};
ghost use Rattle.fd_devices.specs.Kept.{AreFewOf, AreSmallEnds, IsKeptOf, is_moved as has_settings, most_constants as most_constants_of, most_loads as most_loads_of, most_terms as most_terms_of, parts_of as parts_by_kind, reach_of};
ghost use Rattle.fd_devices.specs.Reach.{device_places};
ghost use Rattle.fd_devices.specs.Scripted.{device_of};
ghost use Rattle.fd_devices.specs.Settings.{AreOwn, settings_in};
ghost use Rattle.fd_devices.specs.Standing.{HasPlace, IsReadyAt, IsSettledAt, KnowsMagnitudes};

use crate::reached::{add_bank_places, add_transformer_places};
use crate::settings::SettingSlices;
use crate::stamps::element_stamp;
use crate::writers::{capacitor_into, load_into, transformer_into};
use dss_layout::{Element, Ends, Layout, LoadKind, TermFault};
use fd_pattern::{add_load_places, add_term_places};
use fd_xfmr::Stamp;
use std::alloc::{AllocError, Global};

/// What is the same of an element at all settings: where it stands, and, if it has no settings, what it adds.
#[derive(Drop)]
pub struct Kept {
    pub at: Ends,
    pub stamp: Stamp,
}

/// Whether an element has settings: taps, a state, or powers.
pub fn is_moved(element: &Element) -> bool
    ensures { result ≡ has_settings element.now }
{
    match element {
        Element::Transformer(_) | Element::Capacitor(_) | Element::Load(_) => true,
        _ => false,
    }
}

/// How many contributions an element has at most, at any settings.
pub fn most_terms(element: &Element) -> usize
    requires { ElementInRange element.now }
    ensures value { result ≡ most_terms_of element.now }
    ensures small { result ≤ 256 }
{
    match element {
        Element::Vsource(source) => 64 * (1 + source.phases as usize),
        Element::Line(line) => 64 * (1 + line.phases as usize),
        Element::Transformer(_) => 60,
        Element::Capacitor(_) => 24,
        Element::Load(load) => 16 * load.phases as usize,
        _ => 0,
    }
}

/// How many part loads an element has at most.
pub fn most_loads(element: &Element) -> usize
    requires { ElementInRange element.now }
    ensures value { result ≡ most_loads_of element.now }
    ensures small { result ≤ 9 }
{
    match element {
        Element::Load(load) => parts_of(load.model) * load.phases as usize,
        _ => 0,
    }
}

// How many part loads a phase has.
fn parts_of(kind: LoadKind) -> usize
    ensures value { result ≡ parts_by_kind kind }
    ensures small { result ≤ 3 }
{
    match kind {
        LoadKind::Zip => 3,
        _ => 1,
    }
}

/// How many constants an element has at most.
pub fn most_constants(element: &Element) -> usize
    ensures value { result ≡ most_constants_of element.now }
    ensures small { result ≤ 6 }
{
    match element {
        Element::Vsource(_) => 6,
        _ => 0,
    }
}

/// What is kept of an element, which is taken with these settings; adds the places that it can reach. After a refusal
/// nothing is said of the places.
///
/// # Errors
/// Range exactly where a contribution of the element is past 2^54 in units of 2^-40 or a load phase past its limit.
/// `NoMemory` where memory is refused.
pub fn kept_of(
    alloc: Global,
    places: &mut Vec<(u32, u32)>,
    layout: &Layout,
    hertz: u32,
    place: usize,
    element: &Element,
    own: &SettingSlices,
) -> Result<Kept, TermFault>
    requires place { HasPlace layout.now place }
    requires ready { IsReadyAt layout.now place element.now }
    requires frequency { IsOneOf (50 ∷ 60 ∷ []) hertz }
    requires own { AreOwn element.now (settings_in own.now) }
    requires modest { All IsModest own.now.powers.now }
    ensures kept { IfOk result (λ k. IsKeptOf layout.now hertz place element.now k) }
    ensures settled { IfOk result (λ k. IsSettledAt layout.now hertz place element.now (settings_in own.now)) }
    ensures places { IfOk result (λ k. places.new.items
        ≡ places.old.items ++ device_places (device_of layout.now hertz place element.now (settings_in own.now))) }
    ensures inside { IfOk result (λ k. All (IsInside (size_of layout.now))
        (device_places (device_of layout.now hertz place element.now (settings_in own.now)))) }
    ensures range { result ≡ Err TermFault.Range
        → ¬ (DeviceFits (device_of layout.now hertz place element.now (settings_in own.now))) }
{
    let stamp = element_stamp(alloc, layout, hertz, place, element, own)?;
    let at = layout.ends(alloc, place, element)?;
    add_places(alloc, places, element, &at, &stamp)?;
    let stamp = if is_moved(element) {
        Stamp::empty(alloc)
    } else {
        stamp
    };
    Ok(Kept { at, stamp })
}

// Adds the places that an element can reach, which stands at these ends and adds this stamp with its settings.
fn add_places(
    alloc: Global,
    places: &mut Vec<(u32, u32)>,
    element: &Element,
    at: &Ends,
    stamp: &Stamp,
) -> Result<(), AllocError>
    requires ends { AreSmallEnds element.now at.now }
    requires first { All (λ u. IsSmall u.first) stamp.now.loads.items }
    requires second { All (λ u. IsSmall u.second) stamp.now.loads.items }
    ensures { OnOk result (places.new.items ≡ places.old.items ++ reach_of element.now at.now (stamp_of stamp.now)) }
{
    match element {
        Element::Transformer(xfmr) => add_transformer_places(alloc, places, xfmr.phases, at),
        Element::Capacitor(_) => add_bank_places(alloc, places, at),
        Element::Load(_) => add_load_places(alloc, places, &stamp.loads),
        _ => add_term_places(places, &stamp.terms),
    }
}

/// Puts what an element adds in place of what a stamp has, which has room for 256 contributions, nine part loads and
/// six constants. Takes no memory.
///
/// # Errors
/// Range alone, exactly where a contribution of the element is past 2^54 in units of 2^-40 or a load phase past its
/// limit.
pub fn stamp_into(
    into: &mut Stamp,
    layout: &Layout,
    hertz: u32,
    place: usize,
    element: &Element,
    own: &SettingSlices,
    kept: &Kept,
) -> Result<(), TermFault>
    requires place { KnowsMagnitudes layout.now place }
    requires ready { IsReadyAt layout.now place element.now }
    requires own { AreOwn element.now (settings_in own.now) }
    requires modest { All IsModest own.now.powers.now }
    requires kept { IsKeptOf layout.now hertz place element.now kept.now }
    requires room { HasRoom into.old 256 9 6 }
    ensures stamp { OnOk result (stamp_of into.new
        ≡ device_stamp (device_of layout.now hertz place element.now (settings_in own.now))) }
    ensures settled { OnOk result (IsSettledAt layout.now hertz place element.now (settings_in own.now)) }
    ensures few { OnOk result (AreFewOf element.now (stamp_of into.new)) }
    ensures range { IfErr result (λ e. (e ≡ TermFault.Range)
        × ¬ (DeviceFits (device_of layout.now hertz place element.now (settings_in own.now)))) }
    ensures room { IsRoomSame into.old into.new }
{
    match element {
        Element::Transformer(xfmr) => transformer_into(into, xfmr, own.taps[0], &kept.at),
        Element::Capacitor(bank) => capacitor_into(into, bank, own.closed[0], &kept.at),
        Element::Load(load) => load_into(
            into,
            load,
            &kept.at.first,
            layout.first_magnitude(place),
            own.powers,
        ),
        _ => {
            into.clear();
            into.append_reserved(&kept.stamp);
            Ok(())
        }
    }
}
