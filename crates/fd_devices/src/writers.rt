// What elements add, written into stamps that have the room for it.
ghost use Rattle.std.specs.Prelude.{◌≡◌, ◌*◌, ◌<◌, ◌≤◌, ◌^◌, [], IfErr, OnOk, All, length, vec_capacity};
ghost use Rattle.dss_layout.specs.dss_model.InRange.{CapacitorInRange, LoadInRange, TransformerInRange};
ghost use Rattle.fd_xfmr.specs.fd_system.Stamps.{IsRoomSame, stamp_of};
ghost use Rattle.fd_xfmr.specs.fd_system.Terminals.{IsSide, node_count};
ghost use Rattle.fd_xfmr.specs.Leakage.{AreTaps, IsXfmr};
ghost use Rattle.fd_xfmr.specs.Transformer.{IsBetween as IsXfmrBetween};
ghost use Rattle.fd_cap.specs.Capacitor.{IsCap};
ghost use Rattle.fd_devices.specs.Building.{DeviceFits, IsModest, IsUsable};
ghost use Rattle.fd_devices.specs.Kept.{parts_of};
ghost use Rattle.fd_devices.specs.Data.{cap_data_of, xfmr_data_of};
ghost use Rattle.fd_devices.specs.Devices.{device_stamp, capacitor as capacitor_device, loads as load_device, transformer as transformer_device};
ghost use Rattle.fd_devices.specs.Scripted.{phases_of};
ghost use Rattle.fd_devices.specs.Standing.{SettlesAsLoad, SettlesBetween, SettlesOn};

use crate::data::{cap_data, xfmr_data};
use crate::phase_loads::{are_in_limits, linear_terms_into, load_phases_into, total_draw};
use dss_layout::{Capacitor, Ends, Load, NodesAt, TapPair, TermFault, Transformer};
use fd_cap::{CapData, cap_draw, cap_terms_into};
use fd_elements::LoadPower;
use fd_xfmr::{Stamp, XfmrData, xfmr_terms_into};

/// Puts what a transformer adds in place of what a stamp with room for 64 contributions has. Takes no memory. Range
/// alone is the error, exactly where a contribution is past 2^54 in units of 2^-40.
pub fn transformer_into(
    into: &mut Stamp,
    xfmr: &Transformer,
    taps: TapPair,
    at: &Ends,
) -> Result<(), TermFault>
    requires range { TransformerInRange xfmr.now }
    requires taps { AreTaps taps }
    requires at { IsXfmrBetween xfmr.now.phases at.now }
    requires room { 64 ≤ vec_capacity into.old.terms }
    ensures stamp { OnOk result (stamp_of into.new
        ≡ device_stamp (transformer_device (xfmr_data_of xfmr.now) taps at.now)) }
    ensures settled { OnOk result (SettlesBetween (node_count xfmr.now.phases) xfmr.now.phases at.now
        (transformer_device (xfmr_data_of xfmr.now) taps at.now)) }
    ensures few { OnOk result (length into.new.terms.items ≤ 60) }
    ensures range { IfErr result (λ e. (e ≡ TermFault.Range)
        × ¬ (DeviceFits (transformer_device (xfmr_data_of xfmr.now) taps at.now))) }
    ensures room { IsRoomSame into.old into.new }
{
    transformer_data_into(into, &xfmr_data(xfmr), taps, at)
}

fn transformer_data_into(
    into: &mut Stamp,
    xfmr: &XfmrData,
    taps: TapPair,
    at: &Ends,
) -> Result<(), TermFault>
    requires xfmr { IsXfmr xfmr.now }
    requires taps { AreTaps taps }
    requires at { IsXfmrBetween xfmr.now.phases at.now }
    requires room { 64 ≤ vec_capacity into.old.terms }
    ensures stamp { OnOk result (stamp_of into.new ≡ device_stamp (transformer_device xfmr.now taps at.now)) }
    ensures settled { OnOk result (SettlesBetween (node_count xfmr.now.phases) xfmr.now.phases at.now
        (transformer_device xfmr.now taps at.now)) }
    ensures few { OnOk result (length into.new.terms.items ≤ 60) }
    ensures range { IfErr result (λ e. (e ≡ TermFault.Range) × ¬ (DeviceFits (transformer_device xfmr.now taps at.now))) }
    ensures room { IsRoomSame into.old into.new }
{
    into.clear();
    xfmr_terms_into(xfmr, taps, at, &mut into.terms)?;
    Ok(())
}

/// Puts what a capacitor bank adds, closed or open, in place of what a stamp with room for 64 contributions has. Takes
/// no memory. Range alone is the error, exactly where a contribution is past 2^54 in units of 2^-40.
pub fn capacitor_into(
    into: &mut Stamp,
    bank: &Capacitor,
    closed: bool,
    at: &Ends,
) -> Result<(), TermFault>
    requires range { CapacitorInRange bank.now }
    requires at { IsSide (node_count bank.now.phases) at.now.first }
    requires room { 64 ≤ vec_capacity into.old.terms }
    ensures stamp { OnOk result (stamp_of into.new
        ≡ device_stamp (capacitor_device (cap_data_of bank.now) closed at.now)) }
    ensures settled { OnOk result (SettlesOn (node_count bank.now.phases) at.now.first
        (capacitor_device (cap_data_of bank.now) closed at.now)) }
    ensures few { OnOk result (length into.new.terms.items ≤ 24) }
    ensures range { IfErr result (λ e. (e ≡ TermFault.Range)
        × ¬ (DeviceFits (capacitor_device (cap_data_of bank.now) closed at.now))) }
    ensures room { IsRoomSame into.old into.new }
{
    capacitor_data_into(into, &cap_data(bank), closed, at)
}

fn capacitor_data_into(
    into: &mut Stamp,
    bank: &CapData,
    closed: bool,
    at: &Ends,
) -> Result<(), TermFault>
    requires bank { IsCap bank.now }
    requires at { IsSide (node_count bank.now.phases) at.now.first }
    requires room { 64 ≤ vec_capacity into.old.terms }
    ensures stamp { OnOk result (stamp_of into.new ≡ device_stamp (capacitor_device bank.now closed at.now)) }
    ensures settled { OnOk result
        (SettlesOn (node_count bank.now.phases) at.now.first (capacitor_device bank.now closed at.now)) }
    ensures few { OnOk result (length into.new.terms.items ≤ 24) }
    ensures range { IfErr result (λ e. (e ≡ TermFault.Range) × ¬ (DeviceFits (capacitor_device bank.now closed at.now))) }
    ensures room { IsRoomSame into.old into.new }
{
    into.clear();
    cap_terms_into(bank, closed, at, &mut into.terms)?;
    into.draw = cap_draw(bank, closed);
    Ok(())
}

/// Puts what a load adds, with the powers of its phases, in place of what a stamp with room for 144 contributions and
/// nine part loads has; the first magnitude of a load with a part of constant current stands at the place `magnitude`.
/// Takes no memory. Range alone is the error, exactly where a phase is past its limit; no contribution is past 2^54 in
/// units of 2^-40 where none is.
pub fn load_into(
    into: &mut Stamp,
    load: &Load,
    nodes: &NodesAt,
    magnitude: u32,
    powers: &[LoadPower],
) -> Result<(), TermFault>
    requires range { LoadInRange load.now }
    requires nodes { IsSide (node_count load.now.phases) nodes.now }
    requires magnitude { magnitude < 2 ^ 31 }
    requires powers { length powers.now ≡ load.now.phases }
    requires modest { All IsModest powers.now }
    requires term_room { 144 ≤ vec_capacity into.old.terms }
    requires load_room { 9 ≤ vec_capacity into.old.loads }
    ensures stamp { OnOk result (stamp_of into.new
        ≡ device_stamp (load_device (phases_of load.now nodes.now magnitude powers.now))) }
    ensures settled { OnOk result (SettlesAsLoad load.now nodes.now magnitude
        (load_device (phases_of load.now nodes.now magnitude powers.now))) }
    ensures few_terms { OnOk result (length into.new.terms.items ≤ 16 * load.now.phases) }
    ensures few_loads { OnOk result (length into.new.loads.items ≤ parts_of load.now.model * load.now.phases) }
    ensures range { IfErr result (λ e. (e ≡ TermFault.Range)
        × ¬ (DeviceFits (load_device (phases_of load.now nodes.now magnitude powers.now)))) }
    ensures room { IsRoomSame into.old into.new }
{
    into.clear();
    load_phases_into(load, nodes, magnitude, powers, &mut into.loads);
    write_loads(into)
}

// Beside part loads, their contributions and what they draw.
fn write_loads(into: &mut Stamp) -> Result<(), TermFault>
    requires usable { All IsUsable into.old.loads.items }
    requires few { length into.old.loads.items ≤ 9 }
    requires terms { into.old.terms.items ≡ [] }
    requires constants { into.old.constants.items ≡ [] }
    requires room { 144 ≤ vec_capacity into.old.terms }
    ensures stamp { OnOk result (stamp_of into.new ≡ device_stamp (load_device into.old.loads.items)) }
    ensures fits { OnOk result (DeviceFits (load_device into.old.loads.items)) }
    ensures loads { into.new.loads.items ≡ into.old.loads.items }
    ensures range { IfErr result (λ e. (e ≡ TermFault.Range) × ¬ (DeviceFits (load_device into.old.loads.items))) }
    ensures room { IsRoomSame into.old into.new }
{
    if !are_in_limits(&into.loads) {
        return Err(TermFault::Range);
    }
    linear_terms_into(&into.loads, &mut into.terms);
    into.draw = total_draw(&into.loads);
    Ok(())
}
