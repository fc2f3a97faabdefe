// From heights of rows to bounds of unknowns, from the last row to the first.
ghost use Rattle.std.specs.Prelude.{◌≡◌, ◌+◌, ◌<◌, nat_abs, length, MatchResult};
ghost use Rattle.fd_substitution.specs.fd_derived.fd_factors.Factors.{weighted_size};
ghost use Rattle.fd_substitution.specs.fd_derived.Rows.{entries_of, number_at};
ghost use Rattle.fd_substitution.specs.fd_derived.Sums.{capped};
ghost use Rattle.fd_bounds.specs.Passes.{AreBounds, IsEnd, bound_unless_wide, bounds_end, from_last, remainder as row_remainder};
ghost use Rattle.fd_bounds.specs.Rows.{AreInOrder, pivot_at, pivot_of, rest_of, unknown_at};

use crate::fault::BoundFault;
use crate::heights::SUM_LIMIT;
use fd_substitution::{Entry, Equation, Row, plus_weighted};
use std::alloc::Global;

// The greatest bound, 2^60.
const BOUND_LIMIT: u128 = 0x1000_0000_0000_0000;

// The unknown of a row, that of its first entry.
pub fn unknown_of(rows: &[Row], row: usize) -> usize
    requires { row < length rows.now }
    ensures { result ≡ unknown_at rows.now row }
{
    match rows[row].left.first() {
        Some(pivot) => pivot.place,
        None => 0,
    }
}

// The bound over a sum; none where one of them is too large.
fn bound_over(sum: u128, pivot: u64) -> Option<u128>
    requires { 0 < pivot }
    ensures { result ≡ bound_unless_wide sum pivot }
{
    if sum >= SUM_LIMIT {
        return None;
    }
    let bound = sum / pivot as u128 + 1;
    if bound > BOUND_LIMIT {
        return None;
    }
    Some(bound)
}

// What the bound of a row's unknown, times its pivot, has to stand above.
fn remainder(left: &[Entry], height: u128, bounds: &[u128]) -> u128
    ensures { result ≡ capped (weighted_size (rest_of (entries_of left.now)) (number_at bounds.now) + height) }
{
    match left.split_first() {
        Some((_, rest)) => plus_weighted(height, rest, bounds),
        None => height,
    }
}

// The size of a row's first entry.
fn pivot_size(left: &[Entry]) -> u64
    ensures { result ≡ nat_abs (pivot_of (entries_of left.now)).1 }
{
    match left.first() {
        Some(pivot) => pivot.units.unsigned_abs(),
        None => 0,
    }
}

// The bound of a row's unknown, by the row's height and the bounds of the other unknowns; none where a number is too
// large.
fn bound_of(left: &[Entry], height: u128, bounds: &[u128]) -> Option<u128>
    requires { 0 < nat_abs (pivot_of (entries_of left.now)).1 }
    ensures { result ≡ bound_unless_wide (weighted_size (rest_of (entries_of left.now)) (number_at bounds.now) + height)
        (nat_abs (pivot_of (entries_of left.now)).1) }
{
    bound_over(remainder(left, height, bounds), pivot_size(left))
}

// The row that has so many behind it.
fn last_but(rows: &[Row], behind: usize) -> usize
    requires { behind < length rows.now }
    ensures inside { result < length rows.now }
    ensures value { result ≡ from_last rows.now behind }
{
    rows.len() - 1 - behind
}

// The bound of a row's unknown, by the heights of the rows and the bounds of the other unknowns; none where a number is
// too large.
fn bound_at(rows: &[Row], heights: &[u128], bounds: &[u128], row: usize) -> Option<u128>
    requires row { row < length rows.now }
    requires heights { length heights.now ≡ length rows.now }
    requires pivot { 0 < pivot_at rows.now row }
    ensures { result ≡ bound_unless_wide (row_remainder rows.now (number_at heights.now) (number_at bounds.now) row) (pivot_at rows.now row) }
{
    bound_of(&rows[row].left, heights[row], bounds)
}

// The bounds of the unknowns, by the heights of the rows.
pub fn widths(
    alloc: Global,
    equations: &[Equation],
    rows: &[Row],
    heights: &[u128],
) -> Result<Vec<u128>, BoundFault>
    requires order { AreInOrder equations.now rows.now }
    requires heights { length heights.now ≡ length rows.now }
    ensures { MatchResult result (λ bounds. AreBounds rows.now (length equations.now) (number_at heights.now) bounds.items)
        (λ fault. IsEnd fault (bounds_end rows.now (number_at heights.now))) }
{
    let mut bounds = vec![in alloc; 0u128; equations.len()]?;
    for behind in 0..rows.len() {
        let row = last_but(rows, behind);
        match bound_at(rows, heights, &bounds, row) {
            Some(bound) => bounds[unknown_of(rows, row)] = bound,
            None => return Err(BoundFault::Unbounded(unknown_of(rows, row))),
        }
    }
    Ok(bounds)
}
