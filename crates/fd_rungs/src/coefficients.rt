// Coefficients in whole 2^-40.
ghost use Rattle.std.specs.Prelude.{◌≡◌, ◌≤◌, ◌<◌, ◌*◌, ◌++◌, ◌^◌, [], ◌∷◌, ℕ, nat_abs, OnOk};
ghost use Rattle.fd_rungs.specs.Numbers.{SizedBy, coefficient};

use fd_pattern::near_units;
use std::alloc::AllocError;

/// Impedances are in whole numbers of this part of an ohm.
const PICO_PER_OHM: u128 = 1_000_000_000_000;

/// n / d in whole 2^-40, to the nearest.
pub fn coefficient(n: i128, d: u128) -> i128
    requires positive { 0 < d }
    requires most { d ≤ 10 ^ 32 }
    requires small { nat_abs n * 2 ^ 40 ≤ 2 ^ 100 * d }
    ensures value { result ≡ coefficient n d }
    ensures within { (k : ℕ) → nat_abs n * 2 ^ 40 ≤ k * d → nat_abs result ≤ k }
{
    near_units(n, d)
}

// The coefficient of an impedance in whole 10^-12 ohm.
fn ohms(n: i128) -> i128
    requires { nat_abs n ≤ 10 ^ 30 }
    ensures value { result ≡ coefficient n (10 ^ 12) }
    ensures small { nat_abs result ≤ 2 ^ 100 }
{
    coefficient(n, PICO_PER_OHM)
}

/// One more entry of a row of an impedance, in whole 10^-12 ohm.
pub fn push_ohms(row: &mut Vec<i128>, n: i128) -> Result<(), AllocError>
    requires n { nat_abs n ≤ 10 ^ 30 }
    requires row { SizedBy (2 ^ 100) row.old.items }
    ensures value { OnOk result (row.new.items ≡ row.old.items ++ coefficient n (10 ^ 12) ∷ []) }
    ensures small { OnOk result (SizedBy (2 ^ 100) row.new.items) }
{
    Ok(row.push(ohms(n))?)
}
