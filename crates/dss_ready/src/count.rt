// Counts that are tested at Solve.
ghost use Rattle.std.specs.Prelude.{◌≡◌, ◌&&◌, IfOk};
ghost use Rattle.dss_ready.specs.Noted.{Notes, has_shape};
ghost use Rattle.dss_circuit.specs.dss_model.Sound.{is_size_wrong, is_matrix, are_matrices_wrong};
ghost use Rattle.dss_ready.specs.Counts.{is_shape_short, lacks_transformer, lacks_line_or_bank, is_part_wrong};

use crate::lookup::{Elements, find_given};
use crate::mention::Mentions;
use dss_circuit::{
    CapControl, Class, DataForm, Element, ElementName, Line, Loadshape, Numbers, RegControl,
};
use std::alloc::AllocError;

fn is_matrix_size_fault(phases: u32, matrix: &Option<Numbers>) -> bool
    ensures { result ≡ is_size_wrong phases matrix.now }
{
    match matrix {
        Some(numbers) => numbers.as_slice().len() as u64 != u64::from(phases) * u64::from(phases),
        None => false,
    }
}

fn is_given_by_matrices(form: Option<DataForm>) -> bool
    ensures { result ≡ is_matrix form }
{
    matches!(form, Some(DataForm::Matrix))
}

fn is_line_count_fault(line: &Line) -> bool
    ensures { result ≡ are_matrices_wrong line.now }
{
    let constants = &line.constants;
    let series = is_matrix_size_fault(line.phases, &constants.rmatrix)
        || is_matrix_size_fault(line.phases, &constants.xmatrix);
    let charging = is_matrix_size_fault(line.phases, &constants.cmatrix);
    (is_given_by_matrices(constants.form) && series)
        || (is_given_by_matrices(constants.charge_form) && charging)
}

fn has_few_values(shape: &Loadshape) -> bool
    ensures { result ≡ is_shape_short shape.now }
{
    shape.npts == 0 || shape.mult.as_slice().len() < shape.npts as usize
}

fn is_shape_count_fault(mentions: &Mentions, name: &ElementName, shape: &Loadshape) -> bool
    ensures { result ≡ (is_shape_short shape.now && has_shape mentions.now name.now.name) }
{
    has_few_values(shape) && mentions.has_shape(&name.name)
}

fn is_regcontrol_count_fault(elements: &Elements, control: &RegControl) -> Result<bool, AllocError>
    ensures { IfOk result (λ lacks. lacks ≡ lacks_transformer elements.now.entries control.now) }
{
    let found = find_given(elements, Class::Transformer, &control.transformer)?;
    Ok(found.is_none())
}

fn is_capcontrol_count_fault(elements: &Elements, control: &CapControl) -> Result<bool, AllocError>
    ensures { IfOk result (λ lacks. lacks ≡ lacks_line_or_bank elements.now.entries control.now) }
{
    let line = find_given(elements, Class::Line, &control.element)?;
    let bank = find_given(elements, Class::Capacitor, &control.capacitor)?;
    Ok(line.is_none() || bank.is_none())
}

/// Whether the element has something besides its buses in the wrong number.
pub fn is_part_count_fault(
    elements: &Elements,
    mentions: &Mentions,
    name: &ElementName,
    element: &Element,
) -> Result<bool, AllocError>
    requires { Notes mentions.now elements.now.entries }
    ensures { IfOk result (λ wrong. wrong ≡ is_part_wrong elements.now.entries name.now element.now) }
{
    match element {
        Element::Line(line) => Ok(is_line_count_fault(line)),
        Element::Load(load) => Ok(load.lacks_shares()),
        Element::RegControl(control) => is_regcontrol_count_fault(elements, control),
        Element::CapControl(control) => is_capcontrol_count_fault(elements, control),
        Element::Loadshape(shape) => Ok(is_shape_count_fault(mentions, name, shape)),
        _ => Ok(false),
    }
}
