// What is made once for all rows.
ghost use Rattle.std.specs.Prelude.{◌≡◌, ℕ, ◌+◌, ◌*◌, ◌^◌, length, IfOk};
ghost use Rattle.fd_factors.specs.fd_exact.Sums.{sum_n};
ghost use Rattle.fd_derived.specs.Marks.{AreLists};
ghost use Rattle.fd_derived.specs.Rows.{coefficients_at, number_at, radius, right_side_at, row_at};
ghost use Rattle.fd_derived.specs.Sums.{AreTotals, size_of};

use crate::entries::{Claim, Equation, Row};
use crate::totals::{plus_product, plus_weighted, size_of};
use std::alloc::{AllocError, Global};

/// One in units of 2^-40.
pub const ONE: u128 = 0x100_0000_0000;

// The sizes of each equation's coefficients, those of what each row leaves, and by how much each equation may be off.
#[derive(Drop)]
pub struct Lists {
    pub coefficients: Vec<u128>,
    pub left: Vec<u128>,
    pub allowances: Vec<u128>,
}

/// The sizes of each equation's coefficients, in units of 2^-40.
///
/// # Errors
/// `AllocError` where memory is refused.
pub fn coefficient_sizes(alloc: Global, equations: &[Equation]) -> Result<Vec<u128>, AllocError>
    ensures { IfOk result (λ sizes. AreTotals (λ l. size_of (coefficients_at equations.now l)) (length equations.now) sizes.items) }
{
    let mut sizes = Vec::with_capacity(alloc, equations.len())?;
    for row in 0..equations.len() {
        sizes.push(size_of(&equations[row].coefficients))?;
    }
    Ok(sizes)
}

/// The sizes of what each row leaves, in units of 2^-40.
///
/// # Errors
/// `AllocError` where memory is refused.
pub fn left_sizes(alloc: Global, rows: &[Row]) -> Result<Vec<u128>, AllocError>
    ensures { IfOk result (λ sizes. AreTotals (λ k. size_of (row_at rows.now k).left) (length rows.now) sizes.items) }
{
    let mut sizes = Vec::with_capacity(alloc, rows.len())?;
    for row in 0..rows.len() {
        sizes.push(size_of(&rows[row].left))?;
    }
    Ok(sizes)
}

/// By how much each equation may be off, where the unknowns are within the bounds, in units of 2^-40 of theirs.
///
/// # Errors
/// `AllocError` where memory is refused.
pub fn allowances(
    alloc: Global,
    equations: &[Equation],
    bounds: &[u128],
) -> Result<Vec<u128>, AllocError>
    requires { length bounds.now ≡ length equations.now }
    ensures { IfOk result (λ sizes. AreTotals
        (λ l. sum_n (λ j. radius equations.now l j * number_at bounds.now j) (length equations.now) + 2 ^ 40 * right_side_at equations.now l)
        (length equations.now) sizes.items) }
{
    let mut sizes = Vec::with_capacity(alloc, equations.len())?;
    for row in 0..equations.len() {
        let equation = &equations[row];
        let size = plus_product(0, ONE, equation.right_side);
        sizes.push(plus_weighted(size, &equation.radii, bounds))?;
    }
    Ok(sizes)
}

impl Lists {
    pub fn of(alloc: Global, equations: &[Equation], claim: &Claim) -> Result<Lists, AllocError>
        requires { length claim.now.bounds.items ≡ length equations.now }
        ensures { IfOk result (λ lists. AreLists equations.now claim.now lists) }
    {
        Ok(Lists {
            coefficients: coefficient_sizes(alloc, equations)?,
            left: left_sizes(alloc, &claim.rows)?,
            allowances: allowances(alloc, equations, &claim.bounds)?,
        })
    }
}
