// Quotients of whole numbers that fit 128 bits, by a power of two, of a product and in units of 2^-40.
ghost use Rattle.std.specs.Prelude.{◌≡◌, ℕ, ℤ, pos, ◌+◌, ◌*◌, ◌/◌, ◌-◌, ◌<◌, ◌≤◌, ◌^◌, ◌*ℤ◌, ◌-ℤ◌, ◌<ℤ◌, ◌≤ℤ◌, nat_abs};
ghost use Rattle.fd_exact.specs.Rounding.{floor_div, near_div};

use crate::quotient::near_at;

/// z / 2^40 to the nearest whole number, a tie away from zero.
#[inline]
pub fn near_over_coef(z: i128) -> i128
    requires { nat_abs z ≤ 2 ^ 126 }
    ensures value { result ≡ near_div z (2 ^ 40) }
    ensures size { nat_abs result ≡ (nat_abs z + 2 ^ 39) / 2 ^ 40 }
{
    near_over_power(z, 40)
}

/// z / 2^64 to the nearest whole number, a tie away from zero: the upper half of the 128 bits, once half of 2^64 was
/// added, or one less than that below 0.
#[inline]
pub fn near_over_word(z: i128) -> i128
    requires { nat_abs z ≤ 2 ^ 126 }
    ensures value { result ≡ near_div z (2 ^ 64) }
    ensures size { nat_abs result ≡ (nat_abs z + 2 ^ 63) / 2 ^ 64 }
{
    near_over_power(z, 64)
}

// The same over a power of two.
#[inline]
fn near_over_power(z: i128, bits: u32) -> i128
    requires positive { 0 < bits }
    requires most { bits ≤ 64 }
    requires fits { nat_abs z ≤ 2 ^ 126 }
    ensures value { result ≡ near_div z (2 ^ bits) }
    ensures size { nat_abs result ≡ (nat_abs z + 2 ^ (bits - 1)) / 2 ^ bits }
{
    (z + half_for(z, bits - 1)) >> bits
}

// The half that is added: one less below 0.
#[inline]
fn half_for(z: i128, bits: u32) -> i128
    requires { bits < 64 }
    ensures below { z <ℤ pos 0 → result ≡ (pos (2 ^ bits) -ℤ pos 1) }
    ensures above { pos 0 ≤ℤ z → result ≡ pos (2 ^ bits) }
    ensures most { nat_abs result ≤ 2 ^ 63 }
{
    if z < 0 {
        power_of_two(bits) - 1
    } else {
        power_of_two(bits)
    }
}

#[inline]
fn power_of_two(bits: u32) -> i128
    requires { bits < 64 }
    ensures value { result ≡ pos (2 ^ bits) }
    ensures most { nat_abs result ≤ 2 ^ 63 }
    ensures least { pos 0 ≤ℤ result }
{
    1 << bits
}

/// n times the factor over the divisor, rounded down.
#[inline]
pub fn floor_of_product(n: i128, factor: u128, divisor: u128) -> i128
    requires positive { 0 < divisor }
    requires divisor_fits { divisor ≤ 2 ^ 126 }
    requires product_fits { nat_abs n * factor ≤ 2 ^ 126 }
    ensures value { result ≡ floor_div (n *ℤ pos factor) divisor }
    ensures within { (q : ℕ) → nat_abs n * factor ≤ q * divisor → nat_abs result ≤ q }
{
    let size = n.unsigned_abs() * factor;
    if n < 0 {
        -(size.div_ceil(divisor) as i128)
    } else {
        (size / divisor) as i128
    }
}

/// n / d to the nearest whole number of 2^-40, where that is at most 2^100 in size.
#[inline]
pub fn near_units(n: i128, d: u128) -> i128
    requires positive { 0 < d }
    requires most { d ≤ 10 ^ 32 }
    requires small { nat_abs n * 2 ^ 40 ≤ 2 ^ 100 * d }
    ensures value { result ≡ near_div (n *ℤ pos (2 ^ 40)) d }
    ensures within { (k : ℕ) → nat_abs n * 2 ^ 40 ≤ k * d → nat_abs result ≤ k }
{
    near_at(n, d as i128).unwrap()
}
