// Sums of a row's entries, each times a number, where no sum on the way may be past its range.
ghost use Rattle.std.specs.Prelude.{◌≡◌, ℤ, ◌<◌, ◌≤◌, ◌^◌, ◌-ℤ◌, ◌*ℤ◌, nat_abs, nat_le, length, MatchOption};
ghost use Rattle.fd_substitution.specs.Sums.{IsInside, SumIsPast, SumsAreWithin, weighted};
ghost use Rattle.fd_triangles.specs.fd_derived.fd_factors.fd_exact.States.{part};

use fd_triangles::Entry;

// The greatest size of a sum on the way, 2^120.
const SUM_LIMIT: u128 = 0x100_0000_0000_0000_0000_0000_0000_0000;

// The greatest size of a number that is made of a sum, 2^62.
const NUMBER_LIMIT: u128 = 0x4000_0000_0000_0000;

// A number less a product.
fn less(z: i128, units: i64, number: i64) -> i128
    requires { nat_abs z ≤ 2 ^ 120 }
    ensures { result ≡ z -ℤ units *ℤ number }
{
    z - units as i128 * number as i128
}

// Whether a sum is at most 2^120 in size.
fn is_sum(z: i128) -> bool
    ensures { result ≡ nat_le (nat_abs z) (2 ^ 120) }
{
    z.unsigned_abs() <= SUM_LIMIT
}

// What is left of a number less each entry times the number of its place; none where a sum on the way is past 2^120 in
// size.
pub fn less_products(start: i128, row: &[Entry], numbers: &[i64]) -> Option<i128>
    requires start { nat_abs start ≤ 2 ^ 120 }
    requires inside { IsInside (length numbers.now) row.now }
    ensures sums { MatchOption result (SumIsPast start row.now (part numbers.now))
        (λ _. SumsAreWithin start row.now (part numbers.now)) }
    ensures left { MatchOption result (Unit {0}) (λ left. left ≡ start -ℤ weighted row.now (part numbers.now)) }
{
    let mut left = start;
    for entry in row {
        left = less(left, entry.units, numbers[entry.place]);
        if !is_sum(left) {
            return None;
        }
    }
    Some(left)
}

// A number, where it is at most 2^62 in size.
pub fn in_range(z: i128) -> Option<i64>
    ensures { MatchOption result (2 ^ 62 < nat_abs z) (λ number. (number ≡ z) × (nat_abs z ≤ 2 ^ 62)) }
{
    if z.unsigned_abs() <= NUMBER_LIMIT {
        Some(z as i64)
    } else {
        None
    }
}
