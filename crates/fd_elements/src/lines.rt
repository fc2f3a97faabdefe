// The data of lines.
ghost use Rattle.std.specs.Prelude.{◌≡◌, ◌≤◌, [], ◌∷◌, false, IfOk, IfSome, IsSome};
ghost use Rattle.std.specs.Option.{unwrap_or};
ghost use Rattle.dss_model.specs.Ranges.{IsOneOf};
ghost use Rattle.dss_model.specs.InRange.{LineConstantsInRange, LineInRange};
ghost use Rattle.dss_model.specs.Sound.{are_matrices_wrong, is_size_wrong};
ghost use Rattle.fd_line.specs.Totals.{IsCharge, IsForm, IsLine};
ghost use Rattle.fd_elements.specs.Lines.{charge_by_sequence as charge_by_sequence_values, charge_of, line_data_of, matrix_or_zero, series_by_sequence as series_by_sequence_values, series_of, tenths_of, units_by};

use dss_model::{DataForm, Line, LineConstants, Numbers, Units};
use fd_line::{ChargeForm, Entries, LineData, LineForm};
use std::alloc::{AllocError, Global};

// a metre in 0.1 mm
const METRE: u32 = 10_000;

/// The data of a line at the frequency of its circuit in hertz: its impedance and its charging for each unit of length, in the form that
/// holds, its length, and the units of both in 0.1 mm. Numbers are those of the script, in 10^-9.
///
/// The line's values are in their ranges, it has an impedance, and the matrices that hold have a row and a column for each phase.
pub fn line_data(alloc: Global, line: &Line, hertz: u32) -> Result<LineData, AllocError>
    requires range { LineInRange line.now }
    requires impedance { IsSome line.now.constants.form }
    requires matrices { are_matrices_wrong line.now ≡ false }
    requires frequency { IsOneOf (50 ∷ 60 ∷ []) hertz }
    ensures value { IfOk result (λ d. d ≡ line_data_of line.now hertz) }
    ensures within { IfOk result (λ d. IsLine d) }
{
    let (line_unit, code_unit) = units(tenths(line.units), tenths(line.code_units));
    Ok(LineData {
        phases: line.phases,
        form: series(alloc, line)?,
        charge: charge(alloc, line)?,
        length: line.length,
        line_unit,
        code_unit,
        hertz,
    })
}

// A unit of length in 0.1 mm, where one is given.
fn tenths(unit: Units) -> Option<u32>
    ensures value { result ≡ tenths_of unit }
    ensures least { IfSome result (λ n. 100 ≤ n) }
    ensures most { IfSome result (λ n. n ≤ 16093440) }
{
    match unit {
        Units::None => None,
        Units::Mile => Some(16_093_440),
        Units::Kilofoot => Some(3_048_000),
        Units::Kilometre => Some(10_000_000),
        Units::Metre => Some(METRE),
        Units::Foot => Some(3_048),
        Units::Inch => Some(254),
        Units::Centimetre => Some(100),
    }
}

// The units of the length and of the data, and a metre for both where one of them is not given.
fn units(line: Option<u32>, code: Option<u32>) -> (u32, u32)
    requires line_least { IfSome line (λ n. 100 ≤ n) }
    requires line_most { IfSome line (λ n. n ≤ 16093440) }
    requires code_least { IfSome code (λ n. 100 ≤ n) }
    requires code_most { IfSome code (λ n. n ≤ 16093440) }
    ensures value { result ≡ units_by line code }
    ensures line_least { 100 ≤ result.0 }
    ensures line_most { result.0 ≤ 16093440 }
    ensures code_least { 100 ≤ result.1 }
    ensures code_most { result.1 ≤ 16093440 }
{
    match (line, code) {
        (Some(line), Some(code)) => (line, code),
        _ => (METRE, METRE),
    }
}

fn series(alloc: Global, line: &Line) -> Result<LineForm, AllocError>
    requires range { LineInRange line.now }
    requires matrices { are_matrices_wrong line.now ≡ false }
    ensures value { IfOk result (λ f. f ≡ series_of line.now.constants.form line.now) }
    ensures within { IfOk result (λ f. IsForm line.now.phases f) }
{
    match line.constants.form {
        Some(DataForm::Matrix) => series_by_matrices(alloc, line),
        _ => Ok(series_by_sequence(line.phases, &line.constants)),
    }
}

fn series_by_matrices(alloc: Global, line: &Line) -> Result<LineForm, AllocError>
    requires range { LineInRange line.now }
    requires r { is_size_wrong line.now.phases line.now.constants.rmatrix ≡ false }
    requires x { is_size_wrong line.now.phases line.now.constants.xmatrix ≡ false }
    ensures value { IfOk result (λ f. f
        ≡ LineForm.Matrix (matrix_or_zero line.now.phases line.now.constants.rmatrix)
        (matrix_or_zero line.now.phases line.now.constants.xmatrix)) }
    ensures within { IfOk result (λ f. IsForm line.now.phases f) }
{
    let r = matrix(alloc, line.phases, &line.constants.rmatrix)?;
    let x = matrix(alloc, line.phases, &line.constants.xmatrix)?;
    Ok(LineForm::Matrix { r, x })
}

fn series_by_sequence(phases: u32, constants: &LineConstants) -> LineForm
    requires { LineConstantsInRange constants.now }
    ensures value { result ≡ series_by_sequence_values constants.now }
    ensures within { IsForm phases result }
{
    let r1 = constants.r1.unwrap_or(0);
    let x1 = constants.x1.unwrap_or(0);
    LineForm::Sequence {
        r1,
        x1,
        r0: constants.r0.unwrap_or(r1),
        x0: constants.x0.unwrap_or(x1),
    }
}

fn charge(alloc: Global, line: &Line) -> Result<ChargeForm, AllocError>
    requires range { LineInRange line.now }
    requires matrices { are_matrices_wrong line.now ≡ false }
    ensures value { IfOk result (λ f. f ≡ charge_of line.now.constants.charge_form line.now) }
    ensures within { IfOk result (λ f. IsCharge line.now.phases f) }
{
    match line.constants.charge_form {
        None => Ok(ChargeForm::Sequence { c1: 0, c0: 0 }),
        Some(DataForm::Sequence) => Ok(charge_by_sequence(line.phases, &line.constants)),
        Some(DataForm::Matrix) => Ok(ChargeForm::Matrix {
            c: matrix(alloc, line.phases, &line.constants.cmatrix)?,
        }),
    }
}

fn charge_by_sequence(phases: u32, constants: &LineConstants) -> ChargeForm
    requires { LineConstantsInRange constants.now }
    ensures value { result ≡ charge_by_sequence_values constants.now }
    ensures within { IsCharge phases result }
{
    let c1 = constants.c1.unwrap_or(0);
    ChargeForm::Sequence {
        c1,
        c0: constants.c0.unwrap_or(c1),
    }
}

// The entries of a matrix, and zeros where it is not given.
fn matrix(alloc: Global, phases: u32, given: &Option<Numbers>) -> Result<Entries, AllocError>
    requires { phases ≤ 3 }
    ensures { IfOk result (λ m. m ≡ matrix_or_zero phases given.now) }
{
    match given {
        Some(numbers) => numbers.copied(),
        None => Ok(Entries::new(vec![in alloc; 0; (phases * phases) as usize]?)),
    }
}
