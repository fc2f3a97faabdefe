// What an inverse gives for a residual.
ghost use Rattle.std.specs.Prelude.{◌≡◌, ◌<◌, ◌≤◌, ◌^◌, ◌*ℤ◌, nat_abs, length, IfOk, MatchResult, Ok, Err};
ghost use Rattle.fd_equations.specs.fd_exact.States.{part};
ghost use Rattle.fd_equations.specs.fd_mat.Rows.{EntriesWithin};
ghost use Rattle.fd_inject.specs.Ranges.{SizesWithin};
ghost use Rattle.fd_inject.specs.Updates.{dot, moved, update_for, update_of};
ghost use Rattle.fd_inject.specs.Faults.{UnlessMemory};

use crate::fault::SolveFault;
use crate::ranges::test_range;
use fd_equations::Dense;
use fd_inverse::near_over_coef;
use std::alloc::{AllocError, Global};

// The greatest size of a part of a residual, 2^58.
const RESIDUAL_LIMIT: u128 = 0x400_0000_0000_0000;

// By how much a step from the iterate of this number, which has this residual, changes each part. Refuses a residual out of range.
pub fn update_for(
    alloc: Global,
    inverse: &Dense,
    residual: &[i128],
    step: u32,
) -> Result<Vec<i128>, SolveFault>
    requires long { length residual.now ≡ length inverse.now }
    requires few { length inverse.now ≤ 2 ^ 11 }
    requires entries { EntriesWithin inverse.now (2 ^ 56) }
    ensures update { MatchResult result (λ u. update_for inverse.now step residual.now ≡ Ok u.items)
        (λ f. UnlessMemory f (update_for inverse.now step residual.now ≡ Err f)) }
    ensures long { IfOk result (λ u. length u.items ≡ length inverse.now) }
    ensures small { IfOk result (λ u. SizesWithin (2 ^ 86) u.items) }
{
    test_range(residual, RESIDUAL_LIMIT, step)?;
    let update = update(alloc, inverse, residual)?;
    Ok(update)
}

// The inverse times the residual, its sign turned, each row's sum to the nearest.
fn update(alloc: Global, inverse: &Dense, residual: &[i128]) -> Result<Vec<i128>, AllocError>
    requires long { length residual.now ≡ length inverse.now }
    requires few { length inverse.now ≤ 2 ^ 11 }
    requires entries { EntriesWithin inverse.now (2 ^ 56) }
    requires residual { SizesWithin (2 ^ 58) residual.now }
    ensures update { IfOk result (λ u. u.items ≡ update_of inverse.now residual.now) }
    ensures long { IfOk result (λ u. length u.items ≡ length inverse.now) }
    ensures small { IfOk result (λ u. SizesWithin (2 ^ 86) u.items) }
{
    let mut update = Vec::with_capacity(alloc, residual.len())?;
    for row in 0..inverse.size() {
        update.push(-near_over_coef(dot(inverse.row(row), residual)))?;
    }
    Ok(update)
}

// The sum of the products of a matrix row and a residual.
fn dot(row: &[i64], residual: &[i128]) -> i128
    requires long { length row.now ≡ length residual.now }
    requires few { length residual.now ≤ 2 ^ 11 }
    requires entries { SizesWithin (2 ^ 56) row.now }
    requires residual { SizesWithin (2 ^ 58) residual.now }
    ensures value { result ≡ dot row.now residual.now }
    ensures small { nat_abs result ≤ 2 ^ 125 }
{
    let mut sum = 0;
    for k in 0..residual.len() {
        sum += product(row[k], residual[k]);
    }
    sum
}

// An entry of an inverse times a part of a residual: one multiplication of 64 bits.
fn product(entry: i64, residual: i128) -> i128
    requires entry { nat_abs entry ≤ 2 ^ 56 }
    requires residual { nat_abs residual ≤ 2 ^ 58 }
    ensures value { result ≡ entry *ℤ residual }
    ensures small { nat_abs result ≤ 2 ^ 114 }
{
    entry as i128 * (residual as i64) as i128
}

/// Adds an update to an iterate, part by part.
pub fn add(x: &mut [i128], update: &[i128])
    requires long { length update.now ≡ length x.old }
    requires parts { SizesWithin (2 ^ 40) x.old }
    requires update { SizesWithin (2 ^ 86) update.now }
    ensures { x.new ≡ moved x.old update.now }
{
    for (k, part) in x.iter_mut().enumerate() {
        *part += update[k];
    }
}
