// The phase voltages of a source.
ghost use Rattle.std.specs.Prelude.{◌≡◌, ◌+◌, ◌*◌, ◌<◌, ◌≤◌, ◌^◌, ℤ, ◌*ℤ◌, nat_abs};
ghost use Rattle.fd_system.specs.fd_exact.Rounding.{near_div};
ghost use Rattle.fd_system.specs.fd_exact.Ranges.{UpTo};
ghost use Rattle.fd_source.specs.Phasors.{cosine as cosine_at, steps_of, volts_im, volts_re};
ghost use Rattle.fd_source.specs.Equations.{IsSource};

use crate::data::SourceData;
use fd_system::{FEMTO_PER_ONE, near_quotient};

// a cosine of the half of root three and of one half, in 10^-15
const HALF_ROOT_THREE: i128 = 866_025_403_784_439;

const HALF: i128 = 500_000_000_000_000;

/// The real and the imaginary part of the voltage of phase k, each to the nearest microvolt.
pub fn phase_voltage(source: &SourceData, k: u32) -> (i128, i128)
    requires source { IsSource source.now }
    requires k_in { k < source.now.phases }
    ensures re { result.0 ≡ volts_re source.now k }
    ensures im { result.1 ≡ volts_im source.now k }
{
    let steps = steps(source, k);
    (
        component(source.volts, steps),
        component(source.volts, steps + 9),
    )
}

// The angle of phase k in steps of 30 degrees, two turns ahead.
fn steps(source: &SourceData, k: u32) -> u32
    requires source { IsSource source.now }
    requires k_in { k < source.now.phases }
    ensures value { result ≡ steps_of source.now k }
    ensures most { result ≤ 36 }
{
    (source.angle + 720 - 120 * k as i32) as u32 / 30
}

// The volts times the cosine of this many steps, to the nearest microvolt.
fn component(volts: i128, steps: u32) -> i128
    requires volts { UpTo (2 * 10 ^ 12) volts }
    ensures { result ≡ near_div (volts *ℤ cosine_at steps) (10 ^ 15) }
{
    near_quotient(volts * cosine(steps), FEMTO_PER_ONE as u128)
}

// The cosine of this many steps of 30 degrees, in 10^-15.
fn cosine(steps: u32) -> i128
    ensures value { result ≡ cosine_at steps }
    ensures most { nat_abs result ≤ 10 ^ 15 }
{
    match steps % 12 {
        0 => FEMTO_PER_ONE,
        1 | 11 => HALF_ROOT_THREE,
        2 | 10 => HALF,
        4 | 8 => -HALF,
        5 | 7 => -HALF_ROOT_THREE,
        6 => -FEMTO_PER_ONE,
        _ => 0,
    }
}
