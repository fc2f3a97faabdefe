// What is kept of the elements of a circuit, for its updates.
ghost use Rattle.std.specs.Prelude.{◌≡◌, ◌≤◌, ◌++◌, All, IfErr, IfOk, length};
ghost use Rattle.std.specs.List.{flat_map};
ghost use Rattle.dss_ready.specs.dss_layout.Layout.{size_of};
ghost use Rattle.dss_ready.specs.dss_circuit.Limits.{most_elements};
ghost use Rattle.fd_devices.specs.Standing.{IsSettledAt};
ghost use Rattle.fd_equations.specs.fd_pattern.Patterns.{IsInside};
ghost use Rattle.fd_devices.specs.Building.{DeviceFits, device_fits};
ghost use Rattle.fd_devices.specs.Kept.{IsKeptOf};
ghost use Rattle.fd_devices.specs.Reach.{device_places};
ghost use Rattle.fd_devices.specs.Settings.{own, settings_in};
ghost use Rattle.fd_network.specs.Collecting.{AreTakenFrom, IsMisfit, IsTakenAt, NamesPlace, all_devices, device_at};
ghost use Rattle.fd_network.specs.Faults.{first_without};
ghost use Rattle.fd_network.specs.Keeping.{AreKept};

use crate::fault::PlaceFault;
use dss_ready::{Element, ElementName, Layout, TermFault};
use fd_devices::{Kept, SettingSlices, kept_of};
use indexmap::IndexMap;
use std::alloc::Global;

/// What is kept of all elements, and the places that they can reach.
#[derive(Drop)]
pub struct Made {
    pub kept: Vec<Kept>,
    pub places: Vec<(u32, u32)>,
}

/// What is kept of all elements, in order, with the places that they can reach.
///
/// # Errors
/// `OutOfRange` with the place of the first element that has a contribution past 2^54 in units of 2^-40 or a load phase past its limit.
/// `NoMemory` where memory is refused.
pub fn keep(
    alloc: Global,
    layout: &Layout,
    hertz: u32,
    elements: &IndexMap<ElementName, Element>,
    settings: &SettingSlices,
) -> Result<Made, PlaceFault>
    requires taken { AreTakenFrom layout.now hertz 0 elements.now.entries (settings_in settings.now) }
    requires few { length elements.now.entries ≤ most_elements }
    ensures kept { IfOk result (λ m. AreKept layout.now hertz elements.now.entries m.kept.items) }
    ensures places { IfOk result (λ m. m.places.items
        ≡ flat_map device_places (all_devices layout.now hertz elements.now.entries settings.now)) }
    ensures inside { IfOk result (λ m. All (IsInside (size_of layout.now)) m.places.items) }
    ensures fits { IfOk result (λ m. All DeviceFits (all_devices layout.now hertz elements.now.entries settings.now)) }
    ensures fault { IfErr result
        (NamesPlace (first_without device_fits (all_devices layout.now hertz elements.now.entries settings.now))) }
{
    let entries = elements.as_slice();
    let mut kept = Vec::with_capacity(alloc, entries.len())?;
    let mut places = Vec::new(alloc);
    let mut left = *settings;
    for place in 0..entries.len() {
        let (_, element) = entries.get_index(place).unwrap();
        let one = kept_at(alloc, &mut places, layout, hertz, place, element, &left)?;
        kept.push_reserved(one);
        left = left.after(element);
    }
    Ok(Made { kept, places })
}

// What is kept of the element at a place in order, with the first of the settings that are left.
fn kept_at(
    alloc: Global,
    places: &mut Vec<(u32, u32)>,
    layout: &Layout,
    hertz: u32,
    place: usize,
    element: &Element,
    left: &SettingSlices,
) -> Result<Kept, PlaceFault>
    requires { IsTakenAt layout.now hertz place element.now (settings_in left.now) }
    ensures kept { IfOk result (λ k. IsKeptOf layout.now hertz place element.now k) }
    ensures settled { IfOk result
        (λ k. IsSettledAt layout.now hertz place element.now (own element.now (settings_in left.now))) }
    ensures places { IfOk result (λ k. places.new.items
        ≡ places.old.items ++ device_places (device_at layout.now hertz place element.now left.now)) }
    ensures inside { IfOk result (λ k. All (IsInside (size_of layout.now))
        (device_places (device_at layout.now hertz place element.now left.now))) }
    ensures fault { IfErr result (IsMisfit place (device_at layout.now hertz place element.now left.now)) }
{
    let own = left.own(element);
    match kept_of(alloc, places, layout, hertz, place, element, &own) {
        Ok(kept) => Ok(kept),
        Err(TermFault::Range) => Err(PlaceFault::OutOfRange(place)),
        Err(TermFault::NoMemory) => Err(PlaceFault::NoMemory),
    }
}
