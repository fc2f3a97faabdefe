// The numbers of one row that loses another, in units of 2^-40.
ghost use Rattle.std.specs.Prelude.{◌≡◌, ℤ, pos, ◌*ℤ◌, ◌<◌, ◌≤◌, ◌^◌, nat_abs, nat_le, int_lt};
ghost use Rattle.fd_derived.specs.fd_factors.fd_exact.Rounding.{with_sign};
ghost use Rattle.fd_triangles.specs.Elimination.{less as number_less, multiple as multiple_to};

use fd_mat::near_quotient;

// One in units of 2^-40.
const ONE: i128 = 0x100_0000_0000;

// The greatest size of a multiple and of an entry, 2^62.
const ENTRY_LIMIT: u128 = 0x4000_0000_0000_0000;

// The number in units of 2^-80 that the size of the pivot divides.
fn dividend(units: i64, pivot: i64) -> i128
    ensures value { result ≡ with_sign (int_lt pivot (pos 0)) (units *ℤ pos (2 ^ 40)) }
    ensures size { nat_abs result ≤ 2 ^ 104 }
{
    let scaled = units as i128 * ONE;
    if pivot < 0 { -scaled } else { scaled }
}

// How often a row with this entry loses a row with this pivot.
#[tactic(auto, using(crate::proofs::Sizes::near_over_size), unfolding(crate::specs::Elimination::multiple))]
pub fn multiple(units: i64, pivot: i64) -> i128
    requires { 0 < nat_abs pivot }
    ensures { result ≡ multiple_to units pivot }
{
    near_quotient(dividend(units, pivot), pivot.unsigned_abs() as u128)
}

// What is left of a number that loses f times another.
pub fn less(units: i64, f: i64, other: i64) -> i128
    requires f { nat_abs f ≤ 2 ^ 62 }
    requires other { nat_abs other ≤ 2 ^ 62 }
    ensures { result ≡ number_less units f other }
{
    units as i128 - near_quotient(f as i128 * other as i128, ONE as u128)
}

// Whether a number is at most 2^62 in size.
pub fn is_in_range(z: i128) -> bool
    ensures { result ≡ nat_le (nat_abs z) (2 ^ 62) }
{
    z.unsigned_abs() <= ENTRY_LIMIT
}
