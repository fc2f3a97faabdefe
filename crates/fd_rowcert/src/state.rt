// The equations of a state of a network in a box.
ghost use Rattle.std.specs.Prelude.{◌≡◌, ℕ, ◌<◌, ◌≤◌, ◌^◌, ℤ, nat_abs, List, IfOk, length};
ghost use Rattle.fd_cert.specs.Columns.{HasEntries, HasWeights};
ghost use Rattle.fd_cert.specs.fd_enclosure.Boxes.{part_boxes};
ghost use Rattle.fd_cert.specs.fd_enclosure.Sound.{number_at};
ghost use Rattle.fd_cert.specs.fd_enclosure.fd_equations.Matrices.{IsMatrix, jacobian_amount};
ghost use Rattle.fd_cert.specs.fd_enclosure.fd_equations.Rounded.{jacobian_entry};
ghost use Rattle.fd_cert.specs.fd_enclosure.fd_equations.Weights.{weights_of};
ghost use Rattle.fd_cert.specs.fd_enclosure.fd_exact.States.{part};
ghost use Rattle.fd_cert.specs.fd_enclosure.fd_pattern.Conditions.{IsPoint};
ghost use Rattle.fd_rowcert.specs.Equations.{AreEquationsOf, EndsBy, HaveCoefficients, HaveNumbersOf, Tells, first_wide, first_wide_slopes, radii_by};

use crate::equations::{equations_of, set_radii};
use fd_bounds::Equation;
use fd_cert::{Matrix, NetworkRows, half_widths, radii_at};
use std::alloc::{AllocError, Global};

/// The equations of a state, and the half-widths of the box in which they have their radii.
#[derive(Drop)]
pub struct InBox {
    pub equations: Vec<Equation>,
    pub boxes: Vec<u128>,
}

// That a matrix has nothing in rows behind its last. Does nothing.
fn ends(matrix: &Matrix)
    ensures { (J : ℕ → ℕ → ℤ) → HasEntries matrix.now J → EndsBy matrix.now.size J }
{
    let _places = matrix.pattern().places();
}

/// Gives the equations of the state x the radii of slopes in the box of `1 / parts` of these weights. Answers the
/// half-widths of the box, by unknown in whole microvolts; or the first row whose radii add up to more than 2^62 in
/// units of 2^-40.
///
/// # Errors
/// `AllocError` where memory is refused.
pub fn set_box(
    alloc: Global,
    net: &NetworkRows,
    x: &[i128],
    weights: &[i128],
    parts: u32,
    jacobian: &Matrix,
    equations: &mut [Equation],
) -> Result<Result<Vec<u128>, usize>, AllocError>
    requires point { IsPoint net.now x.now }
    requires weights { weights.now ≡ weights_of net.now x.now }
    requires small { (i : ℕ) → i < net.now.size → nat_abs (part weights.now i) ≤ 2 ^ 66 }
    requires parts { 2 ≤ parts }
    requires jacobian { IsMatrix net.now.size jacobian.now (jacobian_amount net.now x.now) }
    requires long { length equations.old ≡ net.now.size }
    ensures told { IfOk result (λ t. Tells (first_wide net.now.size (radii_by parts net.now x.now)) t
        (λ boxes. boxes.items ≡ part_boxes parts net.now x.now)) }
    ensures kept { IfOk result (λ t. (e : List ℕ)
        → HaveCoefficients net.now.size (jacobian_entry net.now x.now) e equations.old
        → HaveCoefficients net.now.size (jacobian_entry net.now x.now) e equations.new) }
    ensures equations { IfOk result (λ t. IfOk t (λ _. (e : List ℕ)
        → HaveCoefficients net.now.size (jacobian_entry net.now x.now) e equations.old
        → AreEquationsOf net.now parts x.now e equations.new)) }
    ensures numbers { IfOk result (λ t. IfOk t (λ _. (e : List ℕ) → length e ≡ net.now.size
        → HaveCoefficients net.now.size (jacobian_entry net.now x.now) e equations.old
        → HaveNumbersOf net.now parts x.now e equations.new)) }
{
    let boxes = half_widths(alloc, net, weights, parts)?;
    let radii = radii_at(alloc, net, x, &boxes, jacobian)?;
    ends(jacobian);
    ends(&radii);
    match set_radii(alloc, equations, &radii)? {
        Some(row) => Ok(Err(row)),
        None => Ok(Ok(boxes)),
    }
}

/// The equations of the state x of a network in the box of `1 / parts` of its weights, for these mismatches:
/// coefficients are the entries of its Jacobian, radii those of slopes in the box, both in units of 2^-40; right
/// sides are twice the mismatches, in 2^-20 of a whole microampere or microvolt. Or the first row whose coefficients
/// add up to more than 2^62 in size, and where there is none, whose radii do.
///
/// # Errors
/// `AllocError` where memory is refused.
pub fn state_equations(
    alloc: Global,
    net: &NetworkRows,
    x: &[i128],
    parts: u32,
    mismatch: &[u128],
) -> Result<Result<InBox, usize>, AllocError>
    requires point { IsPoint net.now x.now }
    requires parts { 2 ≤ parts }
    requires long { length mismatch.now ≡ net.now.size }
    requires tight { (l : ℕ) → l < length mismatch.now → number_at mismatch.now l ≤ 1000 }
    ensures equations { IfOk result (λ t. Tells (first_wide_slopes parts net.now x.now) t
        (λ s. AreEquationsOf net.now parts x.now mismatch.now s.equations.items)) }
    ensures numbers { IfOk result (λ t. IfOk t
        (λ s. HaveNumbersOf net.now parts x.now mismatch.now s.equations.items)) }
    ensures boxes { IfOk result (λ t. IfOk t (λ s. s.boxes.items ≡ part_boxes parts net.now x.now)) }
{
    let jacobian = net.jacobian(alloc, x)?;
    let mut equations = match equations_of(alloc, &jacobian, mismatch)? {
        Ok(equations) => equations,
        Err(row) => return Ok(Err(row)),
    };
    let weights = net.weights(alloc, x)?;
    match set_box(alloc, net, x, &weights, parts, &jacobian, &mut equations)? {
        Ok(boxes) => Ok(Ok(InBox { equations, boxes })),
        Err(row) => Ok(Err(row)),
    }
}
