// What each device adds to a network.
ghost use Rattle.std.specs.Prelude.{◌≡◌, ◌+◌, ◌*◌, ◌<◌, ◌^◌, false, [], ◌∷◌, IfOk, IsSome, All, length};
ghost use Rattle.dss_layout.specs.dss_model.Ranges.{IsOneOf};
ghost use Rattle.dss_layout.specs.dss_model.InRange.{CapacitorInRange, LineInRange, LoadInRange, TransformerInRange, VsourceInRange};
ghost use Rattle.dss_layout.specs.dss_model.Sound.{are_matrices_wrong, is_source_outside};
ghost use Rattle.fd_xfmr.specs.fd_system.Stamps.{stamp_of};
ghost use Rattle.fd_xfmr.specs.fd_system.Terminals.{IsSide, node_count};
ghost use Rattle.fd_elements.specs.fd_line.Line.{IsBetween};
ghost use Rattle.fd_elements.specs.fd_line.Totals.{IsLine};
ghost use Rattle.fd_elements.specs.fd_source.Equations.{IsPlaced, IsSource, constants_from};
ghost use Rattle.fd_xfmr.specs.Leakage.{AreTaps};
ghost use Rattle.fd_xfmr.specs.Transformer.{IsBetween as IsXfmrBetween};
ghost use Rattle.fd_elements.specs.Lines.{line_data_of};
ghost use Rattle.fd_devices.specs.Devices.{device_stamp, capacitor as capacitor_device, line as line_device, loads as load_device, source as source_device, transformer as transformer_device};
ghost use Rattle.fd_devices.specs.Data.{cap_data_of, xfmr_data_of};
ghost use Rattle.fd_elements.specs.Sources.{source_data_of};
ghost use Rattle.fd_devices.specs.Settings.{AreOwn, settings_in};
ghost use Rattle.fd_devices.specs.Scripted.{device_of, phases_of};
ghost use Rattle.fd_devices.specs.Building.{DeviceFits, IsModest};
ghost use Rattle.fd_devices.specs.Standing.{HasPlace, IsReadyAt, IsSettledAt, SettlesAsLoad, SettlesBehind, SettlesBetween, SettlesOn};

use crate::settings::SettingSlices;
use crate::writers::{capacitor_into, load_into, transformer_into};
use dss_layout::{
    Capacitor, Element, Ends, Layout, Line, Load, NodesAt, TapPair, TermFault, Transformer, Vsource,
};
use fd_elements::{
    LineData, LoadPower, SourceData, SourceTerms, line_data, line_terms, source_data, source_terms,
};
use fd_xfmr::{Constant, Stamp};
use std::alloc::{AllocError, Global};

/// What a source adds at its nodes. Range exactly where a contribution is past 2^54 in units of 2^-40.
pub fn source_stamp(alloc: Global, source: &Vsource, at: &Ends) -> Result<Stamp, TermFault>
    requires range { VsourceInRange source.now }
    requires sound { is_source_outside source.now ≡ false }
    requires at { IsPlaced source.now.phases at.now }
    ensures stamp { IfOk result (λ s. stamp_of s ≡ device_stamp (source_device (source_data_of source.now) at.now)) }
    ensures settled { IfOk result
        (λ s. SettlesBehind source.now.phases at.now (source_device (source_data_of source.now) at.now)) }
    ensures range { result ≡ Err TermFault.Range → ¬ (DeviceFits (source_device (source_data_of source.now) at.now)) }
{
    let data = source_data(source)?;
    source_at(alloc, &data, at)
}

fn source_at(alloc: Global, source: &SourceData, at: &Ends) -> Result<Stamp, TermFault>
    requires source { IsSource source.now }
    requires at { IsPlaced source.now.phases at.now }
    ensures stamp { IfOk result (λ s. stamp_of s ≡ device_stamp (source_device source.now at.now)) }
    ensures settled { IfOk result (λ s. SettlesBehind source.now.phases at.now (source_device source.now at.now)) }
    ensures range { result ≡ Err TermFault.Range → ¬ (DeviceFits (source_device source.now at.now)) }
{
    let SourceTerms { terms, constants } = source_terms(alloc, source, at)?;
    Ok(Stamp {
        constants: rows_from(alloc, 2 * at.branch, &constants)?,
        terms,
        loads: Vec::new(alloc),
        draw: 0,
    })
}

// Constants of rows that follow one another.
fn rows_from(alloc: Global, first: u32, values: &[i128]) -> Result<Vec<Constant>, AllocError>
    requires { first + length values.now < 2 ^ 32 }
    ensures { IfOk result (λ rows. rows.items ≡ constants_from first values.now) }
{
    let mut rows = Vec::with_capacity(alloc, values.len())?;
    for k in 0..values.len() {
        rows.push(Constant {
            row: first + k as u32,
            value: values[k],
        })?;
    }
    Ok(rows)
}

/// What a line adds between its ends, at a frequency in hertz. Range exactly where a contribution is past 2^54 in units of 2^-40.
pub fn line_stamp(alloc: Global, line: &Line, hertz: u32, at: &Ends) -> Result<Stamp, TermFault>
    requires range { LineInRange line.now }
    requires impedance { IsSome line.now.constants.form }
    requires matrices { are_matrices_wrong line.now ≡ false }
    requires frequency { IsOneOf (50 ∷ 60 ∷ []) hertz }
    requires at { IsBetween line.now.phases at.now }
    ensures stamp { IfOk result (λ s. stamp_of s ≡ device_stamp (line_device (line_data_of line.now hertz) at.now)) }
    ensures settled { IfOk result (λ s. SettlesBetween line.now.phases line.now.phases at.now
        (line_device (line_data_of line.now hertz) at.now)) }
    ensures range { result ≡ Err TermFault.Range → ¬ (DeviceFits (line_device (line_data_of line.now hertz) at.now)) }
{
    let data = line_data(alloc, line, hertz)?;
    line_at(alloc, &data, at)
}

fn line_at(alloc: Global, line: &LineData, at: &Ends) -> Result<Stamp, TermFault>
    requires line { IsLine line.now }
    requires at { IsBetween line.now.phases at.now }
    ensures stamp { IfOk result (λ s. stamp_of s ≡ device_stamp (line_device line.now at.now)) }
    ensures settled { IfOk result
        (λ s. SettlesBetween line.now.phases line.now.phases at.now (line_device line.now at.now)) }
    ensures range { result ≡ Err TermFault.Range → ¬ (DeviceFits (line_device line.now at.now)) }
{
    Ok(Stamp {
        constants: Vec::new(alloc),
        terms: line_terms(alloc, line, at)?,
        loads: Vec::new(alloc),
        draw: 0,
    })
}

/// What a transformer adds between its ends at these taps. Range exactly where a contribution is past 2^54 in units of 2^-40.
pub fn transformer_stamp(
    alloc: Global,
    xfmr: &Transformer,
    taps: TapPair,
    at: &Ends,
) -> Result<Stamp, TermFault>
    requires range { TransformerInRange xfmr.now }
    requires taps { AreTaps taps }
    requires at { IsXfmrBetween xfmr.now.phases at.now }
    ensures stamp { IfOk result (λ s. stamp_of s
        ≡ device_stamp (transformer_device (xfmr_data_of xfmr.now) taps at.now)) }
    ensures settled { IfOk result (λ s. SettlesBetween (node_count xfmr.now.phases) xfmr.now.phases at.now
        (transformer_device (xfmr_data_of xfmr.now) taps at.now)) }
    ensures range { result ≡ Err TermFault.Range → ¬ (DeviceFits (transformer_device (xfmr_data_of xfmr.now) taps at.now)) }
{
    let mut stamp = Stamp::with_room(alloc, 64, 0, 0)?;
    transformer_into(&mut stamp, xfmr, taps, at)?;
    Ok(stamp)
}

/// What a capacitor bank adds at its nodes, closed or open. Range exactly where a contribution is past 2^54 in units of 2^-40.
pub fn capacitor_stamp(
    alloc: Global,
    bank: &Capacitor,
    closed: bool,
    at: &Ends,
) -> Result<Stamp, TermFault>
    requires range { CapacitorInRange bank.now }
    requires at { IsSide (node_count bank.now.phases) at.now.first }
    ensures stamp { IfOk result (λ s. stamp_of s
        ≡ device_stamp (capacitor_device (cap_data_of bank.now) closed at.now)) }
    ensures settled { IfOk result (λ s. SettlesOn (node_count bank.now.phases) at.now.first
        (capacitor_device (cap_data_of bank.now) closed at.now)) }
    ensures range { result ≡ Err TermFault.Range → ¬ (DeviceFits (capacitor_device (cap_data_of bank.now) closed at.now)) }
{
    let mut stamp = Stamp::with_room(alloc, 64, 0, 0)?;
    capacitor_into(&mut stamp, bank, closed, at)?;
    Ok(stamp)
}

/// What a load adds at its nodes, with the powers of its phases; the first magnitude of a load with a part of constant
/// current stands at the place `magnitude`. Range exactly where a contribution is past 2^54 in units of 2^-40, or a
/// phase is past its limit.
pub fn load_stamp(
    alloc: Global,
    load: &Load,
    nodes: &NodesAt,
    magnitude: u32,
    powers: &[LoadPower],
) -> Result<Stamp, TermFault>
    requires range { LoadInRange load.now }
    requires nodes { IsSide (node_count load.now.phases) nodes.now }
    requires magnitude { magnitude < 2 ^ 31 }
    requires powers { length powers.now ≡ load.now.phases }
    requires modest { All IsModest powers.now }
    ensures stamp { IfOk result (λ s. stamp_of s
        ≡ device_stamp (load_device (phases_of load.now nodes.now magnitude powers.now))) }
    ensures settled { IfOk result (λ s. SettlesAsLoad load.now nodes.now magnitude
        (load_device (phases_of load.now nodes.now magnitude powers.now))) }
    ensures range { result ≡ Err TermFault.Range
        → ¬ (DeviceFits (load_device (phases_of load.now nodes.now magnitude powers.now))) }
{
    let mut stamp = Stamp::with_room(alloc, 144, 9, 0)?;
    load_into(&mut stamp, load, nodes, magnitude, powers)?;
    Ok(stamp)
}

/// What an element adds that stands at a place in order, at the circuit's frequency in hertz and with its own settings.
/// Range exactly where its device has a contribution past 2^54 in units of 2^-40, or a phase past its limit.
pub fn element_stamp(
    alloc: Global,
    layout: &Layout,
    hertz: u32,
    place: usize,
    element: &Element,
    own: &SettingSlices,
) -> Result<Stamp, TermFault>
    requires place { HasPlace layout.now place }
    requires ready { IsReadyAt layout.now place element.now }
    requires frequency { IsOneOf (50 ∷ 60 ∷ []) hertz }
    requires own { AreOwn element.now (settings_in own.now) }
    requires modest { All IsModest own.now.powers.now }
    ensures stamp { IfOk result (λ s. stamp_of s
        ≡ device_stamp (device_of layout.now hertz place element.now (settings_in own.now))) }
    ensures settled { IfOk result (λ s. IsSettledAt layout.now hertz place element.now (settings_in own.now)) }
    ensures range { result ≡ Err TermFault.Range
        → ¬ (DeviceFits (device_of layout.now hertz place element.now (settings_in own.now))) }
{
    match element {
        Element::Vsource(source) => {
            let at = layout.ends(alloc, place, element)?;
            source_stamp(alloc, source, &at)
        }
        Element::Line(line) => {
            let at = layout.ends(alloc, place, element)?;
            line_stamp(alloc, line, hertz, &at)
        }
        Element::Transformer(xfmr) => {
            let at = layout.ends(alloc, place, element)?;
            transformer_stamp(alloc, xfmr, own.taps[0], &at)
        }
        Element::Capacitor(bank) => {
            let at = layout.ends(alloc, place, element)?;
            capacitor_stamp(alloc, bank, own.closed[0], &at)
        }
        Element::Load(load) => {
            let at = layout.ends(alloc, place, element)?;
            load_stamp(
                alloc,
                load,
                &at.first,
                layout.first_magnitude(place),
                own.powers,
            )
        }
        _ => Ok(Stamp::empty(alloc)),
    }
}
