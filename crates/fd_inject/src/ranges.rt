// Lists and matrices that pass a limit.
ghost use Rattle.std.specs.Prelude.{◌≡◌, ◌<◌, ◌≤◌, ◌^◌, length, IfOk, IfNone, OnOk, MatchResult, Ok, Err};
ghost use Rattle.fd_equations.specs.fd_mat.Rows.{EntriesWithin};
ghost use Rattle.fd_inject.specs.Ranges.{SizesWithin, first_past, in_range, inverse_at};
ghost use Rattle.fd_inject.specs.Faults.{UnlessMemory};

use crate::fault::SolveFault;
use fd_equations::{Dense, SparseRows};
use fd_inverse::{InverseFault, Stop, invert_rows};
use std::alloc::Global;

// The greatest size of an entry of a matrix that is eliminated, 2^62.
const ENTRY_LIMIT: u128 = 0x4000_0000_0000_0000;

// The first place of a number greater than this in size, if there is one.
fn first_past(xs: &[i128], limit: u128) -> Option<u32>
    requires { length xs.now ≤ 2 ^ 11 }
    ensures first { result ≡ first_past limit xs.now }
    ensures within { IfNone result (SizesWithin limit xs.now) }
{
    for place in 0..xs.len() {
        if xs[place].unsigned_abs() > limit {
            return Some(place as u32);
        }
    }
    None
}

/// Whether each number is at most `limit` in size.
///
/// # Errors
/// `OutOfRange` at this step with the first place at which one isn't.
pub fn test_range(xs: &[i128], limit: u128, step: u32) -> Result<(), SolveFault>
    requires { length xs.now ≤ 2 ^ 11 }
    ensures range { MatchResult result (λ _. in_range limit step xs.now ≡ Ok xs.now) (λ f. in_range limit step xs.now ≡ Err f) }
    ensures within { OnOk result (SizesWithin limit xs.now) }
{
    match first_past(xs, limit) {
        Some(place) => Err(SolveFault::OutOfRange { place, step }),
        None => Ok(()),
    }
}

// The inverse of a matrix, in units of 2^-40.
pub fn inverse(alloc: Global, a: &SparseRows) -> Result<Dense, SolveFault>
    ensures inverse { MatchResult result (λ c. inverse_at a.now ≡ Ok c) (λ f. UnlessMemory f (inverse_at a.now ≡ Err f)) }
    ensures size { IfOk result (λ c. length c ≡ length a.now) }
    ensures small { IfOk result (λ c. EntriesWithin c (2 ^ 56)) }
{
    match a.first_column_past(ENTRY_LIMIT) {
        Some(column) => Err(SolveFault::NoInverse {
            column,
            cause: Stop::Range,
        }),
        None => inverse_within(alloc, a),
    }
}

// The inverse of a matrix whose entries are at most 2^62 in size.
fn inverse_within(alloc: Global, a: &SparseRows) -> Result<Dense, SolveFault>
    requires { EntriesWithin a.now (2 ^ 62) }
    ensures inverse { MatchResult result (λ c. inverse_at a.now ≡ Ok c) (λ f. UnlessMemory f (inverse_at a.now ≡ Err f)) }
    ensures size { IfOk result (λ c. length c ≡ length a.now) }
    ensures small { IfOk result (λ c. EntriesWithin c (2 ^ 56)) }
{
    match invert_rows(alloc, a) {
        Ok(inverse) => Ok(inverse),
        Err(InverseFault::NoInverse { column, cause }) => Err(SolveFault::NoInverse {
            column,
            cause,
        }),
        Err(InverseFault::NoMemory) => Err(SolveFault::NoMemory),
    }
}
