// The numerators and the denominators of a load's current.
ghost use Rattle.std.specs.Prelude.{◌≡◌, ◌+◌, ◌*◌, ◌^◌, ◌<◌, ◌≤◌, ℤ, pos, ◌+ℤ◌, ◌*ℤ◌, nat_abs};
ghost use Rattle.fd_system.specs.Loads.{clamp, non_negative, square_of};
ghost use Rattle.fd_load.specs.Current.{IsLoadPhase, clamped_magnitude as magnitude_within, clamped_square as square_within, divisor as divisor_by_model, in_phase as numerator_in_phase, largest, power_sum, quadrature as numerator_in_quadrature};

use fd_system::{LoadModel, LoadPhase};

// microamperes in units of a thousandth of a volt-ampere times a microvolt over a squared microvolt
const PER_UNIT: i128 = 1_000_000_000;

/// 10^9 (P p + Q q).
pub fn in_phase(load: &LoadPhase, p: i128, q: i128) -> i128
    requires power { power_sum load.now ≤ 10 ^ 11 }
    requires p_most { nat_abs p ≤ 2 ^ 41 }
    requires q_most { nat_abs q ≤ 2 ^ 41 }
    ensures value { result ≡ numerator_in_phase load.now p q }
    ensures most { nat_abs result ≤ 10 ^ 9 * (power_sum load.now * largest p q) }
    ensures small { nat_abs result ≤ 10 ^ 9 * (10 ^ 11 * 2 ^ 41) }
{
    weighted(load.p, load.q, p, q)
}

/// 10^9 (P q - Q p).
pub fn quadrature(load: &LoadPhase, p: i128, q: i128) -> i128
    requires power { power_sum load.now ≤ 10 ^ 11 }
    requires p_most { nat_abs p ≤ 2 ^ 41 }
    requires q_most { nat_abs q ≤ 2 ^ 41 }
    ensures value { result ≡ numerator_in_quadrature load.now p q }
    ensures most { nat_abs result ≤ 10 ^ 9 * (power_sum load.now * largest p q) }
    ensures small { nat_abs result ≤ 10 ^ 9 * (10 ^ 11 * 2 ^ 41) }
{
    weighted(load.p, load.q, q, -p)
}

// 10^9 (a x + b y) of two powers and two parts of the voltage.
fn weighted(a: i128, b: i128, x: i128, y: i128) -> i128
    requires powers { nat_abs a + nat_abs b ≤ 10 ^ 11 }
    requires x_most { nat_abs x ≤ 2 ^ 41 }
    requires y_most { nat_abs y ≤ 2 ^ 41 }
    ensures value { result ≡ pos (10 ^ 9) *ℤ (a *ℤ x +ℤ b *ℤ y) }
    ensures most { nat_abs result ≤ 10 ^ 9 * ((nat_abs a + nat_abs b) * largest x y) }
    ensures small { nat_abs result ≤ 10 ^ 9 * (10 ^ 11 * 2 ^ 41) }
{
    PER_UNIT * (a * x + b * y)
}

/// The square of a voltage p + j q in whole microvolts, p^2 + q^2. The parts are at most 2^41 in size.
#[inline]
pub fn square(p: i128, q: i128) -> u128
    requires p_most { nat_abs p ≤ 2 ^ 41 }
    requires q_most { nat_abs q ≤ 2 ^ 41 }
    ensures value { result ≡ square_of p q }
{
    let (p, q) = (p.unsigned_abs(), q.unsigned_abs());
    p * p + q * q
}

/// x brought between two limits.
#[inline]
pub fn clamped(x: u128, low: u128, high: u128) -> u128
    requires order { low ≤ high }
    ensures value { result ≡ clamp x low high }
    ensures least { low ≤ result }
    ensures most { result ≤ high }
{
    if x < low {
        low
    } else if high < x {
        high
    } else {
        x
    }
}

/// The square of the terminal voltage p + j q in whole microvolts, brought between the squares of the load's limits. The parts are at most
/// 2^41 in size.
pub fn clamped_square(load: &LoadPhase, p: i128, q: i128) -> u128
    requires load { IsLoadPhase load.now }
    requires p_most { nat_abs p ≤ 2 ^ 41 }
    requires q_most { nat_abs q ≤ 2 ^ 41 }
    ensures value { result ≡ square_within load.now p q }
    ensures least { nat_abs load.now.vlo * nat_abs load.now.vlo ≤ result }
    ensures positive { 0 < result }
    ensures most { result ≤ 4 * 10 ^ 24 }
{
    let (low, high) = (load.vlo.unsigned_abs(), load.vhi.unsigned_abs());
    clamped(square(p, q), low * low, high * high)
}

/// A magnitude in whole microvolts, brought between the load's limits. One below 0 counts as 0.
pub fn clamped_magnitude(load: &LoadPhase, m: i128) -> u128
    requires load { IsLoadPhase load.now }
    ensures value { result ≡ magnitude_within load.now m }
    ensures least { nat_abs load.now.vlo ≤ result }
    ensures most { result ≤ 2 * 10 ^ 12 }
{
    clamped(
        positive_part(m),
        load.vlo.unsigned_abs(),
        load.vhi.unsigned_abs(),
    )
}

// m, or 0 where it is negative.
#[inline]
fn positive_part(m: i128) -> u128
    ensures { result ≡ non_negative m }
{
    if m < 0 { 0 } else { m as u128 }
}

/// The nominal voltage times the clamped magnitude, in square microvolts.
pub fn nominal_times_magnitude(load: &LoadPhase, m: i128) -> u128
    requires load { IsLoadPhase load.now }
    ensures value { result ≡ nat_abs load.now.vn * magnitude_within load.now m }
    ensures least { nat_abs load.now.vlo * nat_abs load.now.vlo ≤ result }
    ensures positive { 0 < result }
    ensures most { result ≤ 4 * 10 ^ 24 }
{
    load.vn.unsigned_abs() * clamped_magnitude(load, m)
}

/// The denominator of the load's current by its model.
pub fn divisor(load: &LoadPhase, p: i128, q: i128, m: i128) -> i128
    requires load { IsLoadPhase load.now }
    requires p_most { nat_abs p ≤ 2 ^ 41 }
    requires q_most { nat_abs q ≤ 2 ^ 41 }
    ensures value { result ≡ pos (divisor_by_model load.now p q m) }
    ensures positive { 0 < divisor_by_model load.now p q m }
    ensures most { divisor_by_model load.now p q m ≤ 4 * 10 ^ 24 }
{
    match load.model {
        LoadModel::ConstantPower => clamped_square(load, p, q) as i128,
        LoadModel::ConstantImpedance => nominal_square(load) as i128,
        LoadModel::ConstantCurrent => nominal_times_magnitude(load, m) as i128,
    }
}

fn nominal_square(load: &LoadPhase) -> u128
    requires load { IsLoadPhase load.now }
    ensures value { result ≡ nat_abs load.now.vn * nat_abs load.now.vn }
    ensures least { 1 ≤ result }
    ensures most { result ≤ 4 * 10 ^ 24 }
{
    load.vn.unsigned_abs() * load.vn.unsigned_abs()
}
