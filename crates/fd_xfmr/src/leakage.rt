// The leakage impedance of a transformer and its ratio, at its taps.
ghost use Rattle.std.specs.Prelude.{◌≡◌, ℕ, ◌*◌, ◌≤◌, ◌^◌, ℤ, pos, ◌*ℤ◌, nat_abs};
ghost use Rattle.fd_system.specs.fd_exact.Ranges.{Between, UpTo};
ghost use Rattle.fd_xfmr.specs.Windings.{first_volts as first, second_volts as second};
ghost use Rattle.fd_xfmr.specs.Leakage.{AreTaps, AreWithin, IsXfmr, coefficients_of, nominal_leakage, nominal_reactance, nominal_resistance, percent_resistance};

use crate::data::XfmrData;
use fd_system::{TapPair, floor_of_product, phase_volts};

/// The numbers of a transformer's equations at its taps: the ratio U2 t2 / (U1 t1) as `ratio` / `ratio_over`, U being the nominal
/// voltages of the windings and t their taps, and the leakage impedance r + j x at the second winding in whole 10^-22 ohm.
#[derive(Clone, Copy, Debug)]
pub struct Coefficients {
    pub ratio: i128,
    pub ratio_over: i128,
    pub r: i128,
    pub x: i128,
}

/// The numbers of a transformer's equations at these taps. The leakage impedance at nominal tap is (%R1 + %R2 + j XHL) / 100 times
/// the square of U2 over the rated power of one phase, rounded down to 10^-12 ohm; at the taps it is that times the square of t2.
///
/// The data are in the ranges of the script profile, taps from 0.5 to 2.
pub fn coefficients_at(xfmr: &XfmrData, taps: TapPair) -> Coefficients
    requires xfmr { IsXfmr xfmr.now }
    requires taps { AreTaps taps }
    ensures coefficients { result ≡ coefficients_of xfmr.now taps }
    ensures within { AreWithin result }
{
    let (t1, t2) = (taps.first as u128, taps.second as u128);
    Coefficients {
        ratio: product(second_volts(xfmr), t2),
        ratio_over: product(first_volts(xfmr), t1),
        r: product(resistance(xfmr), square(t2)),
        x: product(reactance(xfmr), square(t2)),
    }
}

// The nominal voltage of winding 1 in microvolts.
fn first_volts(xfmr: &XfmrData) -> i128
    requires { IsXfmr xfmr.now }
    ensures value { result ≡ first xfmr.now }
    ensures within { Between 5773000 (10 ^ 12) result }
{
    phase_volts(xfmr.phases, xfmr.conn[0], xfmr.kv[0])
}

// The nominal voltage of winding 2 in microvolts.
fn second_volts(xfmr: &XfmrData) -> i128
    requires { IsXfmr xfmr.now }
    ensures value { result ≡ second xfmr.now }
    ensures within { Between 5773000 (10 ^ 12) result }
{
    phase_volts(xfmr.phases, xfmr.conn[1], xfmr.kv[1])
}

// The resistance and the reactance of the leakage impedance at nominal tap, in whole 10^-12 ohm.
fn resistance(xfmr: &XfmrData) -> i128
    requires { IsXfmr xfmr.now }
    ensures value { result ≡ nominal_resistance xfmr.now }
    ensures within { nat_abs result ≤ 6 * 10 ^ 24 }
{
    leakage(xfmr, both_resistances(xfmr))
}

// %R1 + %R2 in whole 10^-9.
fn both_resistances(xfmr: &XfmrData) -> i128
    requires { IsXfmr xfmr.now }
    ensures value { result ≡ percent_resistance xfmr.now }
    ensures within { UpTo (2 * 10 ^ 11) result }
{
    xfmr.pct_r[0] + xfmr.pct_r[1]
}

fn reactance(xfmr: &XfmrData) -> i128
    requires { IsXfmr xfmr.now }
    ensures value { result ≡ nominal_reactance xfmr.now }
    ensures within { nat_abs result ≤ 6 * 10 ^ 24 }
{
    leakage(xfmr, xfmr.xhl)
}

// A percentage, in whole 10^-9, of the square of U2 over the rated power of one phase: in whole 10^-12 ohm, rounded down.
fn leakage(xfmr: &XfmrData, percent: i128) -> i128
    requires xfmr { IsXfmr xfmr.now }
    requires percent { UpTo (2 * 10 ^ 11) percent }
    ensures value { result ≡ nominal_leakage xfmr.now percent }
    ensures within { nat_abs result ≤ 6 * 10 ^ 24 }
{
    let over = xfmr.kva.unsigned_abs() * 100_000;
    floor_of_product(percent, volts_squared(xfmr), over)
}

// The square of U2 times the number of phases.
fn volts_squared(xfmr: &XfmrData) -> u128
    requires { IsXfmr xfmr.now }
    ensures value { result ≡ nat_abs (second xfmr.now) * nat_abs (second xfmr.now) * xfmr.now.phases }
    ensures most { result ≤ 3 * 10 ^ 24 }
{
    square(second_volts(xfmr).unsigned_abs()) * xfmr.phases as u128
}

fn square(n: u128) -> u128
    requires { n ≤ 10 ^ 12 }
    ensures value { result ≡ n * n }
    ensures within { (m : ℕ) → n ≤ m → result ≤ m * m }
{
    n * n
}

fn product(n: i128, factor: u128) -> i128
    requires n { nat_abs n ≤ 10 ^ 25 }
    requires factor { factor ≤ 10 ^ 11 }
    ensures value { result ≡ n *ℤ pos factor }
    ensures within { nat_abs result ≤ 10 ^ 36 }
{
    n * factor as i128
}
