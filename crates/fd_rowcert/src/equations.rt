// The equations of a state.
ghost use Rattle.std.specs.Prelude.{◌≡◌, ℕ, ◌*◌, ◌<◌, ◌≤◌, ◌^◌, ℤ, None, IfOk, List, length};
ghost use Rattle.fd_cert.specs.Columns.{HasEntries, IsMade};
ghost use Rattle.fd_cert.specs.Slopes.{HasRadii};
ghost use Rattle.fd_cert.specs.fd_enclosure.Sound.{number_at, right_side as right_side_of};
ghost use Rattle.fd_rowcert.specs.Equations.{AreEquations, HaveCoefficients, Tells, first_wide, radii_in};

use crate::entries::row_entries;
use fd_bounds::Equation;
use fd_cert::Matrix;
use std::alloc::{AllocError, Global};

// Twice a whole unit of a mismatch, in units of 2^-20: a state and its centre may each be off by one.
const TWO: u128 = 0x20_0000;

// The right side of the equation of a row with this mismatch.
fn right_side(mismatch: u128) -> u128
    requires { mismatch ≤ 1000 }
    ensures { result ≡ 2 ^ 20 * (2 * mismatch) }
{
    TWO * mismatch
}

/// The equations of the rows of a Jacobian, without radii yet, for these mismatches: their coefficients are its
/// entries that aren't 0, in units of 2^-40, their right sides twice the mismatches, in 2^-20 of a whole unit. Or the
/// first row whose sizes add up to more than 2^62.
///
/// # Errors
/// `AllocError` where memory is refused.
pub fn equations_of(
    alloc: Global,
    jacobian: &Matrix,
    mismatch: &[u128],
) -> Result<Result<Vec<Equation>, usize>, AllocError>
    requires made { IsMade jacobian.now }
    requires long { length mismatch.now ≡ jacobian.now.size }
    requires tight { (l : ℕ) → l < length mismatch.now → number_at mismatch.now l ≤ 1000 }
    ensures { IfOk result (λ t. (J : ℕ → ℕ → ℤ) → HasEntries jacobian.now J
        → Tells (first_wide jacobian.now.size J) t (λ es. HaveCoefficients jacobian.now.size J mismatch.now es.items)) }
{
    let mut equations = Vec::with_capacity(alloc, mismatch.len())?;
    for row in 0..jacobian.size() {
        match row_entries(alloc, jacobian, row)? {
            Some(coefficients) => equations.push(Equation {
                coefficients,
                radii: Vec::new(alloc),
                right_side: right_side(mismatch[row as usize]),
            })?,
            None => return Ok(Err(row as usize)),
        }
    }
    Ok(Ok(equations))
}

/// Gives equations the radii of a matrix, and takes those that they had. Answers none, or the first row whose radii
/// add up to more than 2^62; then some equations have the new radii and some the old.
///
/// # Errors
/// `AllocError` where memory is refused.
pub fn set_radii(
    alloc: Global,
    equations: &mut [Equation],
    radii: &Matrix,
) -> Result<Option<usize>, AllocError>
    requires made { IsMade radii.now }
    requires long { length equations.old ≡ radii.now.size }
    ensures first { IfOk result (λ wide. (R : ℕ → ℕ → ℕ) → HasRadii radii.now R
        → wide ≡ first_wide radii.now.size (radii_in R)) }
    ensures kept { IfOk result (λ wide. (J : ℕ → ℕ → ℤ) (e : List ℕ) → HaveCoefficients radii.now.size J e equations.old
        → HaveCoefficients radii.now.size J e equations.new) }
    ensures equations { IfOk result (λ wide. wide ≡ None → (J : ℕ → ℕ → ℤ) (R : ℕ → ℕ → ℕ) (e : List ℕ)
        → HaveCoefficients radii.now.size J e equations.old → HasRadii radii.now R
        → AreEquations radii.now.size J R e equations.new) }
{
    for row in 0..radii.size() {
        match row_entries(alloc, radii, row)? {
            Some(entries) => equations[row as usize].radii = entries,
            None => return Ok(Some(row as usize)),
        }
    }
    Ok(None)
}
