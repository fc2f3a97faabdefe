// Quotients of whole numbers that fit 128 bits, to the nearest.
ghost use Rattle.std.specs.Prelude.{◌≡◌, ℕ, pos, ◌+◌, ◌*◌, ◌/◌, ◌<◌, ◌≤◌, ◌^◌, ◌≤ℤ◌, nat_abs};
ghost use Rattle.fd_exact.specs.Rounding.{near_div};

/// n over the divisor to the nearest whole number, a tie away from zero.
#[inline]
pub fn near_quotient(n: i128, divisor: u128) -> i128
    requires positive { 0 < divisor }
    requires divisor_fits { divisor ≤ 2 ^ 120 }
    requires size_fits { nat_abs n ≤ 2 ^ 126 }
    ensures value { result ≡ near_div n divisor }
    ensures most { (q : ℕ) → nat_abs n ≤ q * divisor → nat_abs result ≤ q }
    ensures least { (q : ℕ) → q * divisor ≤ nat_abs n → q ≤ nat_abs result }
    ensures sign { pos 0 ≤ℤ n → pos 0 ≤ℤ result }
{
    let size = near_size(n.unsigned_abs(), divisor);
    if n < 0 { -(size as i128) } else { size as i128 }
}

// The same of a natural.
#[inline]
fn near_size(n: u128, divisor: u128) -> u128
    requires positive { 0 < divisor }
    requires divisor_fits { divisor ≤ 2 ^ 120 }
    requires size_fits { n ≤ 2 ^ 126 }
    ensures value { result ≡ (2 * n + divisor) / (2 * divisor) }
    ensures most { (q : ℕ) → n ≤ q * divisor → result ≤ q }
    ensures least { (q : ℕ) → q * divisor ≤ n → q ≤ result }
    ensures fits { result ≤ n }
{
    (2 * n + divisor) / (2 * divisor)
}
