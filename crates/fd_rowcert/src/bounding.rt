// Heights and bounds of rows over a state's equations in a box.
ghost use Rattle.std.specs.Prelude.{◌≡◌, ℕ, ◌<◌, ◌≤◌, ◌^◌, ℤ, nat_abs, List, IfOk, length};
ghost use Rattle.fd_bounds.specs.Results.{MakesClaim};
ghost use Rattle.fd_cert.specs.fd_enclosure.Boxes.{part_boxes};
ghost use Rattle.fd_cert.specs.fd_enclosure.fd_equations.Matrices.{IsMatrix, jacobian_amount};
ghost use Rattle.fd_cert.specs.fd_enclosure.fd_equations.Rounded.{jacobian_entry};
ghost use Rattle.fd_cert.specs.fd_enclosure.fd_equations.Weights.{weights_of};
ghost use Rattle.fd_cert.specs.fd_enclosure.fd_exact.States.{part};
ghost use Rattle.fd_cert.specs.fd_enclosure.fd_pattern.Conditions.{IsPoint};
ghost use Rattle.fd_rowcert.specs.Boxed.{AreInOrderOf, Either, EndsIn, StandFirst, StandIn, StandNowhere};
ghost use Rattle.fd_rowcert.specs.Equations.{HaveCoefficients, HaveNumbersOf};

use crate::state::set_box;
use fd_bounds::{BoundFault, Bounds, Equation, Row, bound_rows};
use fd_cert::{Matrix, NetworkRows};
use std::alloc::{AllocError, Global};

/// Heights and bounds of rows, and the box in which they stand: that of `1 / parts` of the weights, with its
/// half-widths.
#[derive(Debug, Drop)]
pub struct Boxed {
    pub parts: u32,
    pub boxes: Vec<u128>,
    pub bounds: Bounds,
}

// Heights and bounds of rows in the box of `1 / parts` of these weights; or where it ends.
fn in_box(
    alloc: Global,
    net: &NetworkRows,
    x: &[i128],
    weights: &[i128],
    parts: u32,
    jacobian: &Matrix,
    equations: &mut [Equation],
    rows: &[Row],
) -> Result<Result<Boxed, usize>, AllocError>
    requires point { IsPoint net.now x.now }
    requires weights { weights.now ≡ weights_of net.now x.now }
    requires small { (i : ℕ) → i < net.now.size → nat_abs (part weights.now i) ≤ 2 ^ 66 }
    requires parts { 2 ≤ parts }
    requires jacobian { IsMatrix net.now.size jacobian.now (jacobian_amount net.now x.now) }
    requires long { length equations.old ≡ net.now.size }
    requires order { AreInOrderOf net.now.size rows.now }
    ensures told { IfOk result (λ t. (e : List ℕ)
        → HaveCoefficients net.now.size (jacobian_entry net.now x.now) e equations.old
        → Either t (λ b. StandIn net.now x.now e rows.now parts b.bounds) (EndsIn net.now x.now e rows.now parts)) }
    ensures widths { IfOk result (λ t. IfOk t (λ b. b.boxes.items ≡ part_boxes parts net.now x.now)) }
    ensures parts { IfOk result (λ t. IfOk t (λ b. b.parts ≡ parts)) }
    ensures kept { IfOk result (λ t. (e : List ℕ)
        → HaveCoefficients net.now.size (jacobian_entry net.now x.now) e equations.old
        → HaveCoefficients net.now.size (jacobian_entry net.now x.now) e equations.new) }
    ensures claim { IfOk result (λ t. IfOk t (λ b. MakesClaim equations.new rows.now b.bounds)) }
    ensures numbers { IfOk result (λ t. IfOk t (λ _. (e : List ℕ) → length e ≡ net.now.size
        → HaveCoefficients net.now.size (jacobian_entry net.now x.now) e equations.old
        → HaveNumbersOf net.now parts x.now e equations.new)) }
{
    let boxes = match set_box(alloc, net, x, weights, parts, jacobian, equations)? {
        Ok(boxes) => boxes,
        Err(row) => return Ok(Err(row)),
    };
    match bound_rows(alloc, equations, rows) {
        Ok(bounds) => Ok(Ok(Boxed {
            parts,
            boxes,
            bounds,
        })),
        Err(BoundFault::Unbounded(unknown)) => Ok(Err(unknown)),
        Err(BoundFault::NoMemory) => Err(AllocError),
    }
}

/// Heights and bounds of rows over the equations of the state x, in the first of the boxes of 1/200, 1/2,000 and
/// 1/20,000 of these weights in which they stand (`fd_bounds`); or, where they stand in none, where the last one
/// ends: the first row whose radii add up to more than 2^62 in units of 2^-40, or the unknown at which its rows have
/// no bounds. The equations get the radii of the last box that is tried.
///
/// # Errors
/// `AllocError` where memory is refused.
pub fn first_box(
    alloc: Global,
    net: &NetworkRows,
    x: &[i128],
    weights: &[i128],
    jacobian: &Matrix,
    equations: &mut [Equation],
    rows: &[Row],
) -> Result<Result<Boxed, usize>, AllocError>
    requires point { IsPoint net.now x.now }
    requires weights { weights.now ≡ weights_of net.now x.now }
    requires small { (i : ℕ) → i < net.now.size → nat_abs (part weights.now i) ≤ 2 ^ 66 }
    requires jacobian { IsMatrix net.now.size jacobian.now (jacobian_amount net.now x.now) }
    requires long { length equations.old ≡ net.now.size }
    requires order { AreInOrderOf net.now.size rows.now }
    ensures told { IfOk result (λ t. (e : List ℕ)
        → HaveCoefficients net.now.size (jacobian_entry net.now x.now) e equations.old
        → Either t (λ b. StandFirst net.now x.now e rows.now b.parts b.bounds)
        (StandNowhere net.now x.now e rows.now)) }
    ensures widths { IfOk result (λ t. IfOk t (λ b. b.boxes.items ≡ part_boxes b.parts net.now x.now)) }
    ensures claim { IfOk result (λ t. IfOk t (λ b. MakesClaim equations.new rows.now b.bounds)) }
    ensures numbers { IfOk result (λ t. IfOk t (λ b. (e : List ℕ) → length e ≡ net.now.size
        → HaveCoefficients net.now.size (jacobian_entry net.now x.now) e equations.old
        → HaveNumbersOf net.now b.parts x.now e equations.new)) }
{
    let _widest = match in_box(alloc, net, x, weights, 200, jacobian, equations, rows)? {
        Ok(boxed) => return Ok(Ok(boxed)),
        Err(end) => end,
    };
    let _second = match in_box(alloc, net, x, weights, 2_000, jacobian, equations, rows)? {
        Ok(boxed) => return Ok(Ok(boxed)),
        Err(end) => end,
    };
    match in_box(alloc, net, x, weights, 20_000, jacobian, equations, rows)? {
        Ok(boxed) => Ok(Ok(boxed)),
        Err(end) => Ok(Err(end)),
    }
}
