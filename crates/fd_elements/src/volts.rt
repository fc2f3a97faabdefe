// Voltages of phases, in whole microvolts.
ghost use Rattle.std.specs.Prelude.{◌≡◌, ℕ, ◌*◌, ◌^◌, ℤ, pos, ◌*ℤ◌, ◌≤ℤ◌};
ghost use Rattle.dss_model.specs.fd_exact.Ranges.{UpTo};
ghost use Rattle.fd_elements.specs.Volts.{part_of as volts_part, part_over_root_three as volts_part_over_root_three};

use dss_model::{ROOT_THREE, near_quotient};

/// A part, in 10^-9, of a voltage.
pub fn part_of(part: i128, volts: i128) -> i128
    requires part { UpTo (2 * 10 ^ 9) part }
    requires volts { UpTo (10 ^ 12) volts }
    ensures value { result ≡ volts_part part volts }
    ensures sign { pos 0 ≤ℤ result }
    ensures most { (q : ℕ) → (part *ℤ volts) ≤ℤ pos (q * 10 ^ 9) → result ≤ℤ pos q }
    ensures least { (q : ℕ) → pos (q * 10 ^ 9) ≤ℤ (part *ℤ volts) → pos q ≤ℤ result }
{
    near_quotient(part * volts, 1_000_000_000)
}

/// A part, in 10^-9, of a voltage between phases, as that of a phase.
pub fn part_over_root_three(part: i128, volts: i128) -> i128
    requires part { UpTo (2 * 10 ^ 9) part }
    requires volts { UpTo (10 ^ 12) volts }
    ensures value { result ≡ volts_part_over_root_three part volts }
    ensures most { UpTo (2 * 10 ^ 12) result }
{
    near_quotient(product(part, volts) * 1_000_000, ROOT_THREE)
}

// A part times a voltage.
fn product(part: i128, volts: i128) -> i128
    requires part { UpTo (2 * 10 ^ 9) part }
    requires volts { UpTo (10 ^ 12) volts }
    ensures value { result ≡ part *ℤ volts }
    ensures most { UpTo (2 * 10 ^ 9 * 10 ^ 12) result }
{
    part * volts
}
