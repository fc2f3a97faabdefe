// The rows of a network, made of what its elements add.
ghost use Rattle.std.specs.Prelude.{◌≡◌, ◌*◌, ◌≤◌, ◌^◌, All, IfErr, IfOk, IfSome, None, OnOk, Some, length};
ghost use Rattle.std.specs.List.{Contains};
ghost use Rattle.std.specs.Option.{option_map};
ghost use Rattle.fd_equations.specs.fd_exact.Sums.{list_n};
ghost use Rattle.dss_ready.specs.dss_layout.Limits.{most_complex, most_magnitudes};
ghost use Rattle.dss_ready.specs.dss_layout.Layout.{branch_phases, complex_count, size_of};
ghost use Rattle.dss_ready.specs.dss_circuit.Limits.{most_elements};
ghost use Rattle.fd_devices.specs.fd_system.Stamps.{HasRoom, IsRoomSame};
ghost use Rattle.fd_equations.specs.fd_pattern.Conditions.{IsNetwork};
ghost use Rattle.fd_equations.specs.fd_pattern.Patterns.{IsInside};
ghost use Rattle.fd_devices.specs.Building.{AreInRange, DeviceFits, has_small_sums};
ghost use Rattle.fd_devices.specs.Devices.{AgreesWith, parts_of_all, stamp_of_all};
ghost use Rattle.fd_devices.specs.Scripted.{devices_network};
ghost use Rattle.fd_network.specs.Assembled.{AreExchanged, CanTake, HaveListsRoom, HavePartsRoom, HaveRoom, IsAsBefore, parts_network};
ghost use Rattle.fd_devices.specs.Settings.{settings_in};
ghost use Rattle.fd_network.specs.Collecting.{AreTakenFrom, all_devices};
ghost use Rattle.fd_network.specs.Faults.{first_out_of_range, first_without};
ghost use Rattle.fd_network.specs.Former.{AreFormerFrom, former_at, formers_in};
ghost use Rattle.fd_network.specs.Keeping.{AreKept, Reaches, room_for};
ghost use Rattle.fd_network.specs.Places.{AreMagnitudesFrom};
ghost use Rattle.fd_network.specs.Stamps.{extents_of};

use crate::extents::{Extent, Stamps};
use crate::fault::OutOfRange;
use crate::former::{Former, StampSlices};
use crate::room::Room;
use crate::stamps::{check_sums, collect};
use dss_ready::{Element, ElementName, Layout};
use fd_devices::{Constant, Kept, SettingSlices, Stamp, device_law, reach_law};
use fd_equations::Rows;
use indexmap::IndexMap;
use std::alloc::{AllocError, Global};
use std::mem;

/// What elements in a layout add to the rows of a network, with the sums, and how much of it each element has.
#[derive(Drop)]
pub struct Parts {
    pub rows: Rows,
    pub constants: Vec<Constant>,
    pub draw: u128,
    pub extents: Vec<Extent>,
}

/// The lists in which what elements add is written: `stamps` for all elements, `one` for each in turn.
#[derive(Drop)]
pub struct Lists {
    pub stamps: Stamps,
    pub one: Stamp,
}

/// Makes the parts those of the network of elements in a layout, at the circuit's frequency in hertz and with these settings. Where they
/// stand at settings already, the stamps of elements that have the same are left as they are. Takes no memory. After a refusal the parts are
/// as before.
///
/// # Errors
/// `OutOfRange` with the place of the first element that is out of range by itself, or where there is none of the first with a
/// contribution at a place where the sum is past 2^54 in units of 2^-40.
pub fn assemble(
    parts: &mut Parts,
    lists: &mut Lists,
    layout: &Layout,
    hertz: u32,
    elements: &IndexMap<ElementName, Element>,
    settings: &SettingSlices,
    kept: &[Kept],
    before: Option<SettingSlices>,
) -> Result<(), OutOfRange>
    requires taken { AreTakenFrom layout.now hertz 0 elements.now.entries (settings_in settings.now) }
    requires magnitudes { AreMagnitudesFrom layout.now (2 * complex_count layout.now) 0 elements.now.entries }
    requires few { length elements.now.entries ≤ most_elements }
    requires few_branches { list_n (λ e. branch_phases e.1) elements.now.entries ≤ most_complex }
    requires few_complexes { complex_count layout.now ≤ most_complex }
    requires few_magnitudes { length layout.now.magnitudes ≤ most_magnitudes }
    requires size { parts.old.rows.size ≡ size_of layout.now }
    requires kept { AreKept layout.now hertz elements.now.entries kept.now }
    requires room { HaveRoom (room_for elements.now.entries) parts.old lists.old }
    requires reaches { Reaches layout.now hertz elements.now.entries parts.old.rows.places }
    requires before { IfSome before (λ s. AreFormerFrom layout.now hertz 0 elements.now.entries (former_at parts.old s)) }
    ensures network { OnOk result (parts_network layout.now parts.new
        ≡ devices_network layout.now (all_devices layout.now hertz elements.now.entries settings.now)) }
    ensures valid { OnOk result (IsNetwork (parts_network layout.now parts.new)) }
    ensures extents { OnOk result (parts.new.extents.items
        ≡ extents_of (all_devices layout.now hertz elements.now.entries settings.now)) }
    ensures agrees { OnOk result (AgreesWith (parts_network layout.now parts.new).stamp
        (parts_of_all (all_devices layout.now hertz elements.now.entries settings.now))) }
    ensures in_range { OnOk result (AreInRange (all_devices layout.now hertz elements.now.entries settings.now)) }
    ensures fault { IfErr result
        (λ f. first_out_of_range (all_devices layout.now hertz elements.now.entries settings.now) ≡ Some f.0) }
    ensures as_before { IfErr result (λ f. IsAsBefore parts.old parts.new) }
    ensures size { parts.new.rows.size ≡ parts.old.rows.size }
    ensures places { parts.new.rows.places ≡ parts.old.rows.places }
    ensures room { HaveRoom (room_for elements.now.entries) parts.new lists.new }
{
    let Lists { stamps, one } = lists;
    let former = former_of(parts, before);
    collect(stamps, one, layout, hertz, elements, settings, kept, former)?;
    reach_law();
    exchange(parts, stamps);
    match check_entries(one, layout, hertz, elements, settings, kept, &parts.rows) {
        Ok(()) => {
            device_law();
            Ok(())
        }
        Err(fault) => {
            exchange(parts, stamps);
            Err(fault)
        }
    }
}

impl Parts {
    /// Parts in which nothing stands yet: they can hold what stands at these places of row and column in a layout, and have this room.
    ///
    /// # Errors
    /// `AllocError` where the memory is refused.
    pub fn reaching(
        alloc: Global,
        layout: &Layout,
        places: Vec<(u32, u32)>,
        room: Room,
    ) -> Result<Parts, AllocError>
        requires inside { All (IsInside (size_of layout.now)) places.items }
        requires few_complexes { complex_count layout.now ≤ most_complex }
        requires few_magnitudes { length layout.now.magnitudes ≤ most_magnitudes }
        ensures size { IfOk result (λ p. p.rows.size ≡ size_of layout.now) }
        ensures places { IfOk result (λ p. All (Contains p.rows.places) places.items) }
        ensures room { IfOk result (HavePartsRoom room) }
    {
        Ok(Parts {
            rows: Rows::reaching(alloc, layout.size(), places, room.terms, room.loads)?,
            constants: Vec::with_capacity(alloc, room.constants)?,
            draw: 0,
            extents: Vec::with_capacity(alloc, room.elements)?,
        })
    }
}

impl Lists {
    /// Empty lists with this room for all elements, and for one the room that any element has.
    ///
    /// # Errors
    /// `AllocError` where the memory is refused.
    pub fn with_room(alloc: Global, room: Room) -> Result<Lists, AllocError>
        ensures { IfOk result (HaveListsRoom room) }
    {
        Ok(Lists {
            stamps: Stamps::with_room(alloc, room)?,
            one: Stamp::with_room(alloc, 256, 9, 6)?,
        })
    }
}

// The stamps in the parts with the settings at which they stand, where these are known.
fn former_of<'a>(parts: &'a Parts, before: Option<SettingSlices<'a>>) -> Option<Former<'a>>
    ensures { formers_in result ≡ option_map (former_at parts.now) before.entry }
{
    match before {
        Some(at) => Some(Former {
            stamps: StampSlices {
                extents: &parts.extents,
                constants: &parts.constants,
                terms: parts.rows.terms(),
                loads: parts.rows.loads(),
            },
            at,
        }),
        None => None,
    }
}

// Exchanges the parts with what stamps have. Takes no memory.
fn exchange(parts: &mut Parts, stamps: &mut Stamps)
    requires { CanTake parts.old stamps.old }
    ensures exchanged { AreExchanged parts.old stamps.old parts.new stamps.new }
{
    let Stamps { all, extents } = stamps;
    parts.rows.replace(&mut all.terms, &mut all.loads);
    mem::swap(&mut parts.constants, &mut all.constants);
    mem::swap(&mut parts.draw, &mut all.draw);
    mem::swap(&mut parts.extents, extents);
}

// Whether each entry is small. The elements are walked again only where one isn't, to name the first that has a part in it.
fn check_entries(
    one: &mut Stamp,
    layout: &Layout,
    hertz: u32,
    elements: &IndexMap<ElementName, Element>,
    settings: &SettingSlices,
    kept: &[Kept],
    rows: &Rows,
) -> Result<(), OutOfRange>
    requires taken { AreTakenFrom layout.now hertz 0 elements.now.entries (settings_in settings.now) }
    requires kept { AreKept layout.now hertz elements.now.entries kept.now }
    requires one { HasRoom one.old 256 9 6 }
    requires fits { All DeviceFits (all_devices layout.now hertz elements.now.entries settings.now) }
    requires terms { rows.now.terms
        ≡ (stamp_of_all (all_devices layout.now hertz elements.now.entries settings.now)).terms }
    ensures small { OnOk result (AreInRange (all_devices layout.now hertz elements.now.entries settings.now)) }
    ensures fault { IfErr result (λ f. first_without (has_small_sums rows.now.terms)
        (all_devices layout.now hertz elements.now.entries settings.now) ≡ Some f.0) }
    ensures one { IsRoomSame one.old one.new }
{
    if rows.are_within() {
        return Ok(());
    }
    check_sums(one, layout, hertz, elements, settings, kept, rows)
}
