// The slopes of part loads, in units of 2^-40.
ghost use Rattle.std.specs.Prelude.{◌≡◌, ◌≤◌, ◌*◌, ◌^◌, neg_ℤ, nat_abs, length, All};
ghost use Rattle.fd_pattern.specs.fd_load.Current.{IsLoadPhase, power_sum};
ghost use Rattle.fd_pattern.specs.fd_load.Slopes.{admittance as admittance_of, slope_row};
ghost use Rattle.fd_pattern.specs.Conditions.{IsPart};
ghost use Rattle.fd_equations.specs.PartLoads.{no_slopes as no_slopes_of, slopes_there, start_slopes as slopes_at_start};
ghost use Rattle.fd_pattern.specs.Terminals.{IsConnected};
ghost use Rattle.fd_equations.specs.Slopes.{AreSlopes, IsSlope};

use crate::terminals::voltage_of;
use fd_pattern::{
    LoadAt, LoadPhase, SlopeRow, Slopes, admittance as admittance_over, rounded_slopes,
};

/// The slopes of a part load at the point x.
pub fn slopes(load: &LoadAt, x: &[i128]) -> Slopes
    requires load { IsConnected (length x.now) load.now }
    requires parts { All IsPart x.now }
    ensures slopes { result ≡ slopes_there x.now load.now }
    ensures small { AreSlopes result }
{
    let at = voltage_of(load, x);
    rounded_slopes(&load.load, at.re, at.im, at.magnitude)
}

/// The slopes of a load phase at the start.
pub fn start_slopes(load: &LoadPhase) -> Slopes
    requires load { IsLoadPhase load.now }
    ensures slopes { result ≡ slopes_at_start load.now }
    ensures small { AreSlopes result }
{
    let (g, b) = (admittance(load, load.p), admittance(load, load.q));
    Slopes {
        real: SlopeRow { p: g, q: b, m: 0 },
        imaginary: SlopeRow { p: -b, q: g, m: 0 },
        magnitude: SlopeRow {
            p: 0,
            q: 0,
            m: TWICE,
        },
    }
}

/// Slopes of 0.
pub fn no_slopes() -> Slopes
    ensures slopes { result ≡ no_slopes_of }
    ensures small { AreSlopes result }
{
    let none = SlopeRow { p: 0, q: 0, m: 0 };
    Slopes {
        real: none,
        imaginary: none,
        magnitude: none,
    }
}

// 2 in units of 2^-40.
const TWICE: i128 = 0x200_0000_0000;

// One of the powers over the square of the nominal voltage.
fn admittance(load: &LoadPhase, power: i128) -> i128
    requires load { IsLoadPhase load.now }
    requires power { nat_abs power ≤ power_sum load.now }
    ensures value { result ≡ admittance_of power (nat_abs load.now.vn * nat_abs load.now.vn) }
    ensures small { nat_abs result ≤ 2 ^ 52 }
{
    let nominal = load.vn.unsigned_abs();
    admittance_over(load, power, nominal * nominal)
}

/// The slopes with their signs turned.
pub fn negated(slope: SlopeRow) -> SlopeRow
    requires small { IsSlope slope }
    ensures value { result ≡ slope_row (neg_ℤ slope.p) (neg_ℤ slope.q) (neg_ℤ slope.m) }
    ensures small { IsSlope result }
{
    SlopeRow {
        p: -slope.p,
        q: -slope.q,
        m: -slope.m,
    }
}
