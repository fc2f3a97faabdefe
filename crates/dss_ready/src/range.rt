// Values that are tested against one another.
ghost use Rattle.std.specs.Prelude.{◌≡◌, IfOk};
ghost use Rattle.dss_circuit.specs.Circuit.{Elements};
ghost use Rattle.dss_ready.specs.Noted.{Notes};
ghost use Rattle.dss_circuit.specs.dss_model.Sound.{is_source_outside};
ghost use Rattle.dss_ready.specs.Ranges.{is_step_outside, is_tap_outside, is_phase_outside, are_settings_outside, is_winding_outside, is_transformer_outside, is_regcontrol_outside, is_capcontrol_outside, is_outside_by};

use crate::lookup::{Elements, find_given, phases_to_measure};
use crate::mention::Mentions;
use dss_circuit::{
    CapControl, Class, ControlQuantity, Element, ElementName, RegControl, SourceForm, Text,
    Transformer, Vsource, Winding, is_source_above_limit,
};
use std::alloc::AllocError;

fn is_source_range_fault(source: &Vsource) -> bool
    ensures { result ≡ is_source_outside source.now }
{
    match source.form {
        SourceForm::ShortCircuit => {
            is_source_above_limit(source.basekv, source.mvasc3, source.mvasc1)
        }
        SourceForm::Ohms => false,
    }
}

fn is_step_small(winding: &Winding) -> bool
    ensures { result ≡ is_step_outside winding.now }
{
    u64::from(winding.maxtap) < u64::from(winding.mintap) + u64::from(winding.numtaps)
}

fn is_tap_beyond(winding: &Winding) -> bool
    ensures { result ≡ is_tap_outside winding.now }
{
    winding.tap < winding.mintap || winding.maxtap < winding.tap
}

fn is_phase_beyond(phase: i32, phases: Option<u32>) -> bool
    ensures { result ≡ is_phase_outside phase phases }
{
    match phases {
        Some(phases) => !(1 <= phase && i64::from(phase) <= i64::from(phases)),
        None => false,
    }
}

fn are_settings_crossed(kind: ControlQuantity, on: i128, off: i128) -> bool
    ensures { result ≡ are_settings_outside kind on off }
{
    match kind {
        ControlQuantity::Voltage => !(on < off),
        ControlQuantity::Current => !(off < on),
        ControlQuantity::Kvar => !(off < on),
    }
}

fn is_winding_range_fault(
    mentions: &Mentions,
    name: &Text,
    number: u32,
    winding: &Winding,
) -> Result<bool, AllocError>
    ensures { (elements : Elements) → Notes mentions.now elements →
        IfOk result (λ outside. outside ≡ is_winding_outside elements name.now number winding.now) }
{
    if is_step_small(winding) {
        return Ok(true);
    }
    if !is_tap_beyond(winding) {
        return Ok(false);
    }
    mentions.has_winding(name, number)
}

fn is_transformer_range_fault(
    mentions: &Mentions,
    name: &Text,
    transformer: &Transformer,
) -> Result<bool, AllocError>
    ensures { (elements : Elements) → Notes mentions.now elements →
        IfOk result (λ outside. outside ≡ is_transformer_outside elements name.now transformer.now) }
{
    if is_winding_range_fault(mentions, name, 1, &transformer.first)? {
        return Ok(true);
    }
    is_winding_range_fault(mentions, name, 2, &transformer.second)
}

fn is_regcontrol_range_fault(elements: &Elements, control: &RegControl) -> Result<bool, AllocError>
    ensures { IfOk result (λ outside. outside ≡ is_regcontrol_outside elements.now.entries control.now) }
{
    let found = find_given(elements, Class::Transformer, &control.transformer)?;
    Ok(is_phase_beyond(control.ptphase, phases_to_measure(found)))
}

fn is_capcontrol_range_fault(elements: &Elements, control: &CapControl) -> Result<bool, AllocError>
    ensures { IfOk result (λ outside. outside ≡ is_capcontrol_outside elements.now.entries control.now) }
{
    let found = find_given(elements, Class::Line, &control.element)?;
    let phases = phases_to_measure(found);
    let crossed = are_settings_crossed(control.kind, control.onsetting, control.offsetting);
    Ok(
        crossed
            || is_phase_beyond(control.ptphase, phases)
            || is_phase_beyond(control.ctphase, phases),
    )
}

/// Whether a value of the element is out of range.
pub fn is_range_fault(
    elements: &Elements,
    mentions: &Mentions,
    name: &ElementName,
    element: &Element,
) -> Result<bool, AllocError>
    requires { Notes mentions.now elements.now.entries }
    ensures { IfOk result (λ outside. outside ≡ is_outside_by elements.now.entries name.now element.now) }
{
    match element {
        Element::Vsource(source) => Ok(is_source_range_fault(source)),
        Element::Transformer(transformer) => {
            is_transformer_range_fault(mentions, &name.name, transformer)
        }
        Element::RegControl(control) => is_regcontrol_range_fault(elements, control),
        Element::CapControl(control) => is_capcontrol_range_fault(elements, control),
        _ => Ok(false),
    }
}
