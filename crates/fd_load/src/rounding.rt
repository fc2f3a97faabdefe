// Quotients to the nearest.
ghost use Rattle.std.specs.Prelude.{◌≡◌, ℕ, ◌*◌, ◌^◌, ◌<◌, ◌≤◌, nat_abs};
ghost use Rattle.fd_load.specs.Slopes.{fine_current as current_in_small_units};

use fd_system::near_units;

/// A current of n / d microamperes to the nearest whole number of 2^-20 microamperes: n / (2^20 d) in units of 2^-40.
pub fn fine_current(n: i128, d: u128) -> i128
    requires positive { 0 < d }
    requires most { d ≤ 4 * 10 ^ 24 }
    requires small { nat_abs n * 2 ^ 20 ≤ 2 ^ 100 * d }
    ensures value { result ≡ current_in_small_units n d }
    ensures within { (k : ℕ) → nat_abs n * 2 ^ 20 ≤ k * d → nat_abs result ≤ k }
{
    near_units(n, 0x10_0000 * d)
}
