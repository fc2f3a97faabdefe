// The number of one place, and that of its unknown.
ghost use Rattle.std.specs.Prelude.{◌≡◌, ℤ, pos, ◌<◌, ◌≤◌, ◌^◌, ◌+ℤ◌, ◌-ℤ◌, ◌*ℤ◌, nat_abs, length, drop};
ghost use Rattle.fd_substitution.specs.Sums.{IsInside, IsMade, lowered as lowered_by, raised as raised_by};
ghost use Rattle.fd_triangles.specs.Rows.{entry_at};
ghost use Rattle.fd_triangles.specs.fd_derived.fd_factors.fd_exact.Rounding.{near_div, near_over};
ghost use Rattle.fd_triangles.specs.fd_derived.fd_factors.fd_exact.States.{part};

use crate::sums::{in_range, less_products};
use fd_triangles::{Entry, near_quotient};

// One in units of 2^-20, that of the numbers.
const FINE: i128 = 0x10_0000;

// One in units of 2^-40, that of the entries.
const ONE: i128 = 0x100_0000_0000;

// A sum over a pivot, to the nearest.
fn over(sum: i128, pivot: i64) -> i128
    requires sum { nat_abs sum ≤ 2 ^ 120 }
    requires pivot { 0 < nat_abs pivot }
    ensures value { result ≡ near_over sum pivot }
{
    let dividend = if pivot < 0 { -sum } else { sum };
    near_quotient(dividend, pivot.unsigned_abs() as u128)
}

// A right side in units of 2^-20, and a sum over one, to the nearest.
fn plus_right(right: i128, sum: i128) -> i128
    requires right { nat_abs right ≤ 2 ^ 42 }
    requires sum { nat_abs sum ≤ 2 ^ 120 }
    ensures { result ≡ pos (2 ^ 20) *ℤ right +ℤ near_div sum (2 ^ 40) }
{
    FINE * right + near_quotient(sum, ONE as u128)
}

// The number of a place: its right side less the multiples of these numbers.
pub fn lowered(others: &[Entry], right: i128, numbers: &[i64]) -> Option<i64>
    requires inside { IsInside (length numbers.now) others.now }
    requires right { nat_abs right ≤ 2 ^ 42 }
    ensures { IsMade (pos 0) others.now (part numbers.now) (lowered_by right others.now (part numbers.now)) result }
{
    match less_products(0, others, numbers) {
        Some(sum) => in_range(plus_right(right, sum)),
        None => None,
    }
}

// The number of an unknown: what the entries that its row leaves behind the pivot, times these numbers, leave of the
// number of its place, over the pivot.
pub fn raised(number: i64, left: &[Entry], numbers: &[i64]) -> Option<i64>
    requires inside { IsInside (length numbers.now) (drop 1 left.now) }
    requires pivot { 0 < nat_abs (entry_at left.now 0).units }
    ensures { IsMade (pos (2 ^ 40) *ℤ number) (drop 1 left.now) (part numbers.now)
        (raised_by number (drop 1 left.now) (part numbers.now) (entry_at left.now 0).units) result }
{
    match less_products(ONE * number as i128, &left[1..], numbers) {
        Some(sum) => in_range(over(sum, left[0].units)),
        None => None,
    }
}
