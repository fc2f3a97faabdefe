// The slopes of a load phase's rows.
ghost use Rattle.std.specs.Prelude.{◌≡◌, ◌+◌, ◌*◌, ◌^◌, ◌<◌, ◌≤◌, ℤ, pos, ◌*ℤ◌, nat_abs, IsTrue};
ghost use Rattle.fd_load.specs.Current.{AreVoltages, IsLoadPhase, clamped_square as square_within, largest, power_sum};
ghost use Rattle.fd_load.specs.Slopes.{IsCurrentRow, IsMagnitudeRow, admittance as admittance_over, by_magnitude as magnitude_slope, by_square as square_slope, constant_current_slopes, constant_power_slopes, fine_current as current_in_small_units, magnitude_is_inside as magnitude_inside, magnitude_slopes as slopes_of_magnitude, near_units as nearest_units, power_slopes, slopes_of, square_is_inside as square_inside};

use crate::power::{
    clamped_magnitude, clamped_square, in_phase, nominal_times_magnitude, quadrature, square,
};
use crate::rounding::fine_current;
use fd_system::{LoadModel, LoadPhase, near_units};

/// The slopes of one row in the parts p and q of the terminal voltage and in the magnitude m, in whole 2^-40.
#[derive(Clone, Copy, PartialEq, Eq, Debug)]
pub struct SlopeRow {
    pub p: i128,
    pub q: i128,
    pub m: i128,
}

/// The slopes of a load phase: of the real and the imaginary part of its current, in siemens, and of the row of its magnitude,
/// (m^2 - p^2 - q^2) / Vn, as plain numbers.
#[derive(Clone, Copy, PartialEq, Eq, Debug)]
pub struct Slopes {
    pub real: SlopeRow,
    pub imaginary: SlopeRow,
    pub magnitude: SlopeRow,
}

const LEVEL: SlopeRow = SlopeRow { p: 0, q: 0, m: 0 };

/// The slopes of the rows of a load phase at a terminal voltage p + j q and a magnitude m, in whole microvolts. Within the limits
/// they are those of the current with its denominator, and outside those over a constant one. A constant impedance has none:
/// its current is linear, and the system has its contributions.
///
/// The voltages are at most 2^41 in size; the load is within the ranges of the script profile.
pub fn rounded_slopes(load: &LoadPhase, p: i128, q: i128, m: i128) -> Slopes
    requires load { IsLoadPhase load.now }
    requires voltages { AreVoltages p q m }
    ensures slopes { result ≡ slopes_of load.now p q m }
    ensures real { IsCurrentRow result.real }
    ensures imaginary { IsCurrentRow result.imaginary }
    ensures magnitude { IsMagnitudeRow result.magnitude }
{
    match load.model {
        LoadModel::ConstantPower => constant_power(load, p, q),
        LoadModel::ConstantImpedance => Slopes {
            real: LEVEL,
            imaginary: LEVEL,
            magnitude: LEVEL,
        },
        LoadModel::ConstantCurrent => constant_current(load, p, q, m),
    }
}

fn constant_power(load: &LoadPhase, p: i128, q: i128) -> Slopes
    requires load { IsLoadPhase load.now }
    requires p_most { nat_abs p ≤ 2 ^ 41 }
    requires q_most { nat_abs q ≤ 2 ^ 41 }
    ensures slopes { result ≡ constant_power_slopes load.now p q }
    ensures real { IsCurrentRow result.real }
    ensures imaginary { IsCurrentRow result.imaginary }
    ensures magnitude { IsMagnitudeRow result.magnitude }
{
    let c = clamped_square(load, p, q);
    let (g, b) = (admittance(load, load.p, c), admittance(load, load.q, c));
    Slopes {
        real: power_row(load, p, q, g, b, in_phase(load, p, q)),
        imaginary: power_row(load, p, q, -b, g, quadrature(load, p, q)),
        magnitude: LEVEL,
    }
}

// A row of constant power: its slopes over a constant denominator, less what the current n / c loses since c grows.
fn power_row(load: &LoadPhase, p: i128, q: i128, at_p: i128, at_q: i128, n: i128) -> SlopeRow
    requires load { IsLoadPhase load.now }
    requires p_most { nat_abs p ≤ 2 ^ 41 }
    requires q_most { nat_abs q ≤ 2 ^ 41 }
    requires at_p_most { nat_abs at_p ≤ 2 ^ 52 }
    requires at_q_most { nat_abs at_q ≤ 2 ^ 52 }
    requires n_most { nat_abs n ≤ 10 ^ 9 * (power_sum load.now * largest p q) }
    ensures row { result ≡ power_slopes load.now p q at_p at_q n }
    ensures within { IsCurrentRow result }
{
    let (less_p, less_q) = by_square(load, p, q, n);
    SlopeRow {
        p: at_p - less_p,
        q: at_q - less_q,
        m: 0,
    }
}

fn constant_current(load: &LoadPhase, p: i128, q: i128, m: i128) -> Slopes
    requires load { IsLoadPhase load.now }
    requires voltages { AreVoltages p q m }
    ensures slopes { result ≡ constant_current_slopes load.now p q m }
    ensures real { IsCurrentRow result.real }
    ensures imaginary { IsCurrentRow result.imaginary }
    ensures magnitude { IsMagnitudeRow result.magnitude }
{
    let d = nominal_times_magnitude(load, m);
    let (g, b) = (admittance(load, load.p, d), admittance(load, load.q, d));
    let real_m = by_magnitude(load, p, q, m, in_phase(load, p, q));
    let imaginary_m = by_magnitude(load, p, q, m, quadrature(load, p, q));
    Slopes {
        real: SlopeRow {
            p: g,
            q: b,
            m: real_m,
        },
        imaginary: SlopeRow {
            p: -b,
            q: g,
            m: imaginary_m,
        },
        magnitude: magnitude_slopes(load, p, q, m),
    }
}

fn magnitude_slopes(load: &LoadPhase, p: i128, q: i128, m: i128) -> SlopeRow
    requires load { IsLoadPhase load.now }
    requires voltages { AreVoltages p q m }
    ensures row { result ≡ slopes_of_magnitude (nat_abs load.now.vn) p q m }
    ensures within { IsMagnitudeRow result }
{
    SlopeRow {
        p: -over_nominal(load, p),
        q: -over_nominal(load, q),
        m: over_nominal(load, m),
    }
}

/// One of the powers, in thousandths of a volt-ampere, over d square microvolts: in siemens, in whole 2^-40.
pub fn admittance(load: &LoadPhase, power: i128, d: u128) -> i128
    requires load { IsLoadPhase load.now }
    requires power { nat_abs power ≤ power_sum load.now }
    requires least { nat_abs load.now.vlo * nat_abs load.now.vlo ≤ d }
    requires most { d ≤ 4 * 10 ^ 24 }
    ensures value { result ≡ admittance_over power d }
    ensures most { nat_abs result ≤ 2 ^ 52 }
{
    near_units(1_000_000_000 * power, d)
}

// 2 v over the nominal voltage.
fn over_nominal(load: &LoadPhase, v: i128) -> i128
    requires load { IsLoadPhase load.now }
    requires v_most { nat_abs v ≤ 2 ^ 41 }
    ensures value { result ≡ nearest_units (pos 2 *ℤ v) (nat_abs load.now.vn) }
    ensures most { nat_abs result ≤ 2 ^ 60 }
{
    near_units(2 * v, load.vn.unsigned_abs())
}

// What the current n / c, where c is the clamped square, loses in the columns p and q since c grows with the voltage.
fn by_square(load: &LoadPhase, p: i128, q: i128, n: i128) -> (i128, i128)
    requires load { IsLoadPhase load.now }
    requires p_most { nat_abs p ≤ 2 ^ 41 }
    requires q_most { nat_abs q ≤ 2 ^ 41 }
    requires n_most { nat_abs n ≤ 10 ^ 9 * (power_sum load.now * largest p q) }
    ensures p { result.0 ≡ square_slope load.now p q n p }
    ensures q { result.1 ≡ square_slope load.now p q n q }
    ensures p_size { nat_abs result.0 ≤ 2 ^ 53 }
    ensures q_size { nat_abs result.1 ≤ 2 ^ 53 }
{
    if !square_is_inside(load, p, q) {
        return (0, 0);
    }
    let c = clamped_square(load, p, q);
    let current = current_over(load, p, q, n, c);
    (by_part(p, current, c), by_part(q, current, c))
}

// The current n / d, in 2^-20 microamperes.
fn current_over(load: &LoadPhase, p: i128, q: i128, n: i128, d: u128) -> i128
    requires load { IsLoadPhase load.now }
    requires p_most { nat_abs p ≤ 2 ^ 41 }
    requires q_most { nat_abs q ≤ 2 ^ 41 }
    requires n_most { nat_abs n ≤ 10 ^ 9 * (power_sum load.now * largest p q) }
    requires positive { 0 < d }
    requires least { nat_abs load.now.vlo * nat_abs load.now.vlo ≤ d }
    requires most { d ≤ 4 * 10 ^ 24 }
    ensures value { result ≡ current_in_small_units n d }
    ensures most { nat_abs result ≤ 2 ^ 32 * largest p q }
    ensures small { nat_abs result ≤ 2 ^ 73 }
{
    fine_current(n, d)
}

// 2 v times the current, in 2^-20 microamperes, over c.
fn by_part(v: i128, current: i128, c: u128) -> i128
    requires v_most { nat_abs v ≤ 2 ^ 41 }
    requires current_most { nat_abs current ≤ 2 ^ 73 }
    requires positive { 0 < c }
    requires c_most { c ≤ 4 * 10 ^ 24 }
    requires product { nat_abs v * nat_abs current ≤ 2 ^ 32 * c }
    ensures value { result ≡ nearest_units (pos 2 *ℤ v *ℤ current) (2 ^ 20 * c) }
    ensures most { nat_abs result ≤ 2 ^ 53 }
{
    near_units(2 * v * current, 0x10_0000 * c)
}

// Whether the square of the voltage lies between those of the limits.
fn square_is_inside(load: &LoadPhase, p: i128, q: i128) -> bool
    requires load { IsLoadPhase load.now }
    requires p_most { nat_abs p ≤ 2 ^ 41 }
    requires q_most { nat_abs q ≤ 2 ^ 41 }
    ensures value { result ≡ square_inside load.now p q }
    ensures inside { IsTrue result → largest p q * largest p q ≤ square_within load.now p q }
{
    let (low, high) = (load.vlo.unsigned_abs(), load.vhi.unsigned_abs());
    let square = square(p, q);
    low * low <= square && square <= high * high
}

// What the current n / (Vn c), where c is the clamped magnitude, grows by in the column m.
fn by_magnitude(load: &LoadPhase, p: i128, q: i128, m: i128, n: i128) -> i128
    requires load { IsLoadPhase load.now }
    requires p_most { nat_abs p ≤ 2 ^ 41 }
    requires q_most { nat_abs q ≤ 2 ^ 41 }
    requires n_most { nat_abs n ≤ 10 ^ 9 * (power_sum load.now * largest p q) }
    ensures value { result ≡ magnitude_slope load.now n m }
    ensures most { nat_abs result ≤ 2 ^ 73 }
{
    if !magnitude_is_inside(load, m) {
        return 0;
    }
    let c = clamped_magnitude(load, m);
    let d = nominal_times_magnitude(load, m);
    let current = current_over(load, p, q, n, d);
    -near_units(current, 0x10_0000 * c)
}

// Whether the magnitude lies between the limits.
fn magnitude_is_inside(load: &LoadPhase, m: i128) -> bool
    ensures { result ≡ magnitude_inside load.now m }
{
    load.vlo <= m && m <= load.vhi
}
