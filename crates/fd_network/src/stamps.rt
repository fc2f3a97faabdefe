// What the elements of a circuit add, one after another.
ghost use Rattle.std.specs.Prelude.{◌≡◌, ◌+◌, ◌*◌, ◌<◌, ◌≤◌, ◌^◌, ◌++◌, ◌∷◌, [], ◌↔◌, ◌⊎◌, All, IfErr, IfSome, IsTrue, OnOk, length, vec_capacity};
ghost use Rattle.dss_ready.specs.dss_layout.Layout.{complex_count, size_of};
ghost use Rattle.dss_ready.specs.dss_circuit.Limits.{most_elements};
ghost use Rattle.fd_devices.specs.Standing.{IsSettledAt};
ghost use Rattle.fd_devices.specs.fd_system.Contributions.{AreSmall};
ghost use Rattle.fd_devices.specs.fd_system.Stamps.{HasRoom, IsRoomSame, stamp_of};
ghost use Rattle.fd_devices.specs.fd_system.System.{beside};
ghost use Rattle.fd_equations.specs.fd_pattern.Coefficients.{linear_entry};
ghost use Rattle.fd_devices.specs.Building.{AreCollected, DeviceFits, HasSmallSums, device_fits, has_small_sums};
ghost use Rattle.fd_devices.specs.Devices.{device_stamp, stamp_of_all};
ghost use Rattle.fd_devices.specs.Kept.{AreFewOf, IsKeptOf, most_constants, most_loads, most_terms};
ghost use Rattle.fd_devices.specs.Settings.{own, settings_in};
ghost use Rattle.fd_network.specs.Collecting.{AreTakenFrom, IsTakenAt, all_devices, device_at};
ghost use Rattle.fd_network.specs.Faults.{first_without};
ghost use Rattle.fd_network.specs.Former.{AreFormerFrom, IsFormerOf, IsMovedTo, formers_in};
ghost use Rattle.fd_network.specs.Keeping.{AreKept, room_for};
ghost use Rattle.fd_network.specs.Stamps.{HaveStampsRoom, IsStampsRoomSame, extent_of, extents_of};

use crate::extents::Stamps;
use crate::fault::OutOfRange;
use crate::former::{Former, after_former, unmoved};
use dss_ready::{Element, ElementName, Layout, Term};
use fd_devices::{Kept, SettingSlices, Stamp, stamp_into};
use fd_equations::Rows;
use indexmap::IndexMap;

// Puts what the element at a place in order adds, with the first of the settings that are left, in place of what a
// stamp has.
fn stamp_at(
    into: &mut Stamp,
    layout: &Layout,
    hertz: u32,
    place: usize,
    element: &Element,
    left: &SettingSlices,
    kept: &Kept,
) -> Result<(), OutOfRange>
    requires taken { IsTakenAt layout.now hertz place element.now (settings_in left.now) }
    requires kept { IsKeptOf layout.now hertz place element.now kept.now }
    requires room { HasRoom into.old 256 9 6 }
    ensures stamp { OnOk result (stamp_of into.new
        ≡ device_stamp (device_at layout.now hertz place element.now left.now)) }
    ensures settled { OnOk result
        (IsSettledAt layout.now hertz place element.now (own element.now (settings_in left.now))) }
    ensures few { OnOk result (AreFewOf element.now (stamp_of into.new)) }
    ensures fault { IfErr result (λ f. (f.0 ≡ place)
        × ¬ (DeviceFits (device_at layout.now hertz place element.now left.now))) }
    ensures room { IsRoomSame into.old into.new }
{
    let own = left.own(element);
    match stamp_into(into, layout, hertz, place, element, &own, kept) {
        Ok(()) => Ok(()),
        Err(_) => Err(OutOfRange(place)),
    }
}

// Adds what the element at a place in order adds, with the first of the settings that are left, for which the lists have
// room. Where it has the settings that it had, its stamp is the one that it had; `one` is written else.
fn add_stamp(
    stamps: &mut Stamps,
    one: &mut Stamp,
    layout: &Layout,
    hertz: u32,
    place: usize,
    element: &Element,
    left: &SettingSlices,
    kept: &Kept,
    former: Option<Former>,
) -> Result<(), OutOfRange>
    requires taken { IsTakenAt layout.now hertz place element.now (settings_in left.now) }
    requires kept { IsKeptOf layout.now hertz place element.now kept.now }
    requires former { IfSome (formers_in former) (IsFormerOf layout.now hertz place element.now) }
    requires one { HasRoom one.old 256 9 6 }
    requires draw { stamps.old.all.draw + 17_500_000_000_000 < 2 ^ 128 }
    requires terms { length stamps.old.all.terms.items + most_terms element.now ≤ vec_capacity stamps.old.all.terms }
    requires loads { length stamps.old.all.loads.items + most_loads element.now ≤ vec_capacity stamps.old.all.loads }
    requires constants { length stamps.old.all.constants.items + most_constants element.now
        ≤ vec_capacity stamps.old.all.constants }
    requires extents { length stamps.old.extents.items + 1 ≤ vec_capacity stamps.old.extents }
    ensures stamp { OnOk result (stamp_of stamps.new.all
        ≡ beside (stamp_of stamps.old.all) (device_stamp (device_at layout.now hertz place element.now left.now))) }
    ensures extents { OnOk result (stamps.new.extents.items
        ≡ stamps.old.extents.items ++ extent_of (device_stamp (device_at layout.now hertz place element.now left.now)) ∷ []) }
    ensures settled { OnOk result
        (IsSettledAt layout.now hertz place element.now (own element.now (settings_in left.now))) }
    ensures few { OnOk result
        (AreFewOf element.now (device_stamp (device_at layout.now hertz place element.now left.now))) }
    ensures fault { IfErr result (λ f. (f.0 ≡ place)
        × ¬ (DeviceFits (device_at layout.now hertz place element.now left.now))) }
    ensures room { IsStampsRoomSame stamps.old stamps.new }
    ensures one { IsRoomSame one.old one.new }
    ensures unwritten { IfSome (formers_in former.entry) (λ v. (one.new ≡ one.old) ⊎ IsMovedTo element.now (settings_in left.now) v) }
{
    match unmoved(former, element, left) {
        Some(before) => {
            stamps.push_first(&before.stamps);
            Ok(())
        }
        None => {
            stamp_at(one, layout, hertz, place, element, left, kept)?;
            stamps.push_reserved(one);
            Ok(())
        }
    }
}

/// Puts what all elements add, in order, at the circuit's frequency in hertz, in place of what `stamps` have. The stamp of an element with
/// the settings that it had, where these are known, is the one that it had; `one` is written for each other element in turn. Takes no memory.
///
/// # Errors
/// `OutOfRange` exactly where an element has a contribution past 2^54 in units of 2^-40 or a load phase past its limit, with the place of the
/// first.
pub fn collect(
    stamps: &mut Stamps,
    one: &mut Stamp,
    layout: &Layout,
    hertz: u32,
    elements: &IndexMap<ElementName, Element>,
    settings: &SettingSlices,
    kept: &[Kept],
    former: Option<Former>,
) -> Result<(), OutOfRange>
    requires taken { AreTakenFrom layout.now hertz 0 elements.now.entries (settings_in settings.now) }
    requires few { length elements.now.entries ≤ most_elements }
    requires kept { AreKept layout.now hertz elements.now.entries kept.now }
    requires former { IfSome (formers_in former) (AreFormerFrom layout.now hertz 0 elements.now.entries) }
    requires room { HaveStampsRoom (room_for elements.now.entries) stamps.old }
    requires one { HasRoom one.old 256 9 6 }
    ensures collected { OnOk result
        (AreCollected (length layout.now.nodes) (complex_count layout.now) (size_of layout.now)
        elements.now.entries (all_devices layout.now hertz elements.now.entries settings.now) (stamp_of stamps.new.all)) }
    ensures extents { OnOk result (stamps.new.extents.items
        ≡ extents_of (all_devices layout.now hertz elements.now.entries settings.now)) }
    ensures fault { IfErr result
        (λ f. first_without device_fits (all_devices layout.now hertz elements.now.entries settings.now) ≡ Some f.0) }
    ensures room { IsStampsRoomSame stamps.old stamps.new }
    ensures one { IsRoomSame one.old one.new }
{
    stamps.clear();
    let mut left = *settings;
    let mut before = former;
    let entries = elements.as_slice();
    for place in 0..entries.len() {
        let (_, element) = entries.get_index(place).unwrap();
        let own = &kept[place];
        add_stamp(
            stamps, one, layout, hertz, place, element, &left, own, before,
        )?;
        left = left.after(element);
        before = after_former(before, element);
    }
    Ok(())
}

/// Names the first element with a contribution at a place where the sum of all contributions is past 2^54 in units of 2^-40; there is
/// none where each sum is small. The contributions are those of these elements, each of which is in range by itself; `one` is written for
/// each in turn. Takes no memory.
///
/// # Errors
/// `OutOfRange` with the place of that element.
pub fn check_sums(
    one: &mut Stamp,
    layout: &Layout,
    hertz: u32,
    elements: &IndexMap<ElementName, Element>,
    settings: &SettingSlices,
    kept: &[Kept],
    rows: &Rows,
) -> Result<(), OutOfRange>
    requires taken { AreTakenFrom layout.now hertz 0 elements.now.entries (settings_in settings.now) }
    requires kept { AreKept layout.now hertz elements.now.entries kept.now }
    requires one { HasRoom one.old 256 9 6 }
    requires fits { All DeviceFits (all_devices layout.now hertz elements.now.entries settings.now) }
    requires terms { rows.now.terms
        ≡ (stamp_of_all (all_devices layout.now hertz elements.now.entries settings.now)).terms }
    ensures small { OnOk result
        (All (HasSmallSums rows.now.terms) (all_devices layout.now hertz elements.now.entries settings.now)) }
    ensures fault { IfErr result (λ f. first_without (has_small_sums rows.now.terms)
        (all_devices layout.now hertz elements.now.entries settings.now) ≡ Some f.0) }
    ensures one { IsRoomSame one.old one.new }
{
    let mut left = *settings;
    let entries = elements.as_slice();
    for place in 0..entries.len() {
        let (_, element) = entries.get_index(place).unwrap();
        stamp_at(one, layout, hertz, place, element, &left, &kept[place])?;
        if !have_small_sums(rows, &one.terms) {
            return Err(OutOfRange(place));
        }
        left = left.after(element);
    }
    Ok(())
}

// Whether the sums at the places of these contributions are small.
fn have_small_sums(rows: &Rows, terms: &[Term]) -> bool
    ensures { IsTrue result ↔ All (λ t. AreSmall (linear_entry rows.now.terms t.row t.col)) terms.now }
{
    terms.iter().all(|term| rows.is_within(term.row, term.col))
}
