// The current of a load phase, and the row of its magnitude.
ghost use Rattle.std.specs.Prelude.{◌≡◌, ◌*◌, ◌^◌, ◌≤◌, ℤ, pos, ◌<ℤ◌, ◌≤ℤ◌, nat_abs};
ghost use Rattle.std.specs.Int.RustNames.{unsigned_abs};
ghost use Rattle.fd_system.specs.fd_exact.Fractions.{fraction};
ghost use Rattle.fd_load.specs.Current.{AreVoltages, IsLoadPhase, divisor as divisor_by_model, excess as excess_of, in_phase as numerator_in_phase, phase_current, phase_magnitude, quadrature as numerator_in_quadrature};

use crate::power::{divisor, in_phase, quadrature};
use fd_system::{Cx, Enclose, LoadPhase};

/// The current in microamperes that a load phase draws at a terminal voltage p + j q and a magnitude m, in whole microvolts:
/// 10^9 ((P p + Q q) + j (P q - Q p)) / D, where D is the square of the voltage between the squares of the limits (constant power),
/// the square of the nominal voltage (constant impedance), or the nominal voltage times the magnitude between the limits
/// (constant current). Each part is rounded once, as `T` rounds a quotient.
///
/// The voltages are at most 2^41 in size; the load is within the ranges of the script profile.
pub fn current<T: Enclose>(load: &LoadPhase, p: i128, q: i128, m: i128) -> Cx<T>
    requires load { IsLoadPhase load.now }
    requires voltages { AreVoltages p q m }
    ensures real { result.re ≡ T.ratio_of (numerator_in_phase load.now p q) (divisor_by_model load.now p q m) }
    ensures imaginary { result.im ≡ T.ratio_of (numerator_in_quadrature load.now p q) (divisor_by_model load.now p q m) }
    ensures encloses_real { T.Encloses result.re (phase_current load.now p q m).re }
    ensures encloses_imaginary { T.Encloses result.im (phase_current load.now p q m).im }
{
    let d = divisor(load, p, q, m);
    Cx {
        re: quotient(in_phase(load, p, q), d),
        im: quotient(quadrature(load, p, q), d),
    }
}

/// The row of a load's magnitude in microvolts, (m^2 - p^2 - q^2) / Vn, at a terminal voltage p + j q and a magnitude m in
/// whole microvolts, rounded once, as `T` rounds a quotient.
///
/// The voltages are at most 2^41 in size; the load is within the ranges of the script profile.
pub fn magnitude_row<T: Enclose>(load: &LoadPhase, p: i128, q: i128, m: i128) -> T
    requires load { IsLoadPhase load.now }
    requires voltages { AreVoltages p q m }
    ensures value { result ≡ T.ratio_of (excess_of p q m) (nat_abs load.now.vn) }
    ensures encloses { T.Encloses result (phase_magnitude load.now p q m) }
{
    quotient(excess(p, q, m), load.vn)
}

// m^2 - p^2 - q^2.
fn excess(p: i128, q: i128, m: i128) -> i128
    requires voltages { AreVoltages p q m }
    ensures { result ≡ excess_of p q m }
{
    m * m - p * p - q * q
}

// n / d, rounded as `T` rounds it.
fn quotient<T: Enclose>(n: i128, d: i128) -> T
    requires positive { pos 0 <ℤ d }
    requires most { d ≤ℤ pos (10 ^ 32) }
    ensures value { result ≡ T.ratio_of n (unsigned_abs d) }
    ensures encloses { T.Encloses result (fraction n (unsigned_abs d)) }
{
    T::ratio(n, d)
}
