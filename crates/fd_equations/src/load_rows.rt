// What part loads add to the rounded residual.
ghost use Rattle.std.specs.Prelude.{◌≡◌, ℕ, ℤ, ◌<◌, ◌≤◌, ◌^◌, ◌+ℤ◌, nat_abs, length, All, Some};
ghost use Rattle.fd_mat.specs.fd_exact.Rounding.{near_div};
ghost use Rattle.fd_mat.specs.fd_exact.States.{part};
ghost use Rattle.fd_pattern.specs.fd_load.Current.{AreVoltages, IsLoadPhase, divisor, excess, in_phase, quadrature};
ghost use Rattle.fd_pattern.specs.Conditions.{IsPart};
ghost use Rattle.fd_equations.specs.PartLoads.{load_row, loads_row};
ghost use Rattle.fd_pattern.specs.Terminals.{IsConnected};

use crate::terminals::{Voltage, add_terminal, voltage_of};
use fd_pattern::{Fix, LoadAt, LoadPhase, Micro, current, magnitude_row};

// The current of a load phase in whole microamperes and the row of its magnitude in whole microvolts, each to the nearest.
#[derive(Clone, Copy)]
struct Drawn {
    re: i128,
    im: i128,
    magnitude: i128,
}

/// Adds to each row what the part loads add to it at the point x.
pub fn add_loads(rows: &mut [i128], loads: &[LoadAt], x: &[i128])
    requires loads { All (IsConnected (length x.now)) loads.now }
    requires few { length loads.now < 2 ^ 21 }
    requires long { length rows.old ≡ length x.now }
    requires parts { All IsPart x.now }
    requires room { (l : ℕ) → nat_abs (part rows.old l) ≤ 2 ^ 85 }
    ensures { (l : ℕ) → part rows.new l ≡ part rows.old l +ℤ loads_row loads.now x.now l }
{
    for load in loads {
        add_load(rows, load, x);
    }
}

// Adds to each row what a part load adds to it.
fn add_load(rows: &mut [i128], load: &LoadAt, x: &[i128])
    requires load { IsConnected (length x.now) load.now }
    requires long { length rows.old ≡ length x.now }
    requires parts { All IsPart x.now }
    requires room { (l : ℕ) → nat_abs (part rows.old l) ≤ 2 ^ 123 }
    ensures { (l : ℕ) → part rows.new l ≡ part rows.old l +ℤ load_row x.now l load.now }
{
    if !load.load.model.is_linear() {
        let drawn = draw(&load.load, voltage_of(load, x));
        add_terminal(rows, load, drawn.re, drawn.im, drawn.magnitude);
    }
}

// What a load phase draws at this voltage.
fn draw(load: &LoadPhase, at: Voltage) -> Drawn
    requires load { IsLoadPhase load.now }
    requires voltages { AreVoltages at.re at.im at.magnitude }
    ensures re { result.re ≡ near_div (in_phase load.now at.re at.im) (divisor load.now at.re at.im at.magnitude) }
    ensures im { result.im ≡ near_div (quadrature load.now at.re at.im) (divisor load.now at.re at.im at.magnitude) }
    ensures magnitude { result.magnitude ≡ near_div (excess at.re at.im at.magnitude) (nat_abs load.now.vn) }
    ensures re_small { nat_abs result.re ≤ 2 ^ 62 }
    ensures im_small { nat_abs result.im ≤ 2 ^ 62 }
    ensures magnitude_small { nat_abs result.magnitude ≤ 2 ^ 62 }
{
    let current = current::<Fix<Micro>>(load, at.re, at.im, at.magnitude);
    let magnitude = magnitude_row::<Fix<Micro>>(load, at.re, at.im, at.magnitude);
    Drawn {
        re: units(current.re),
        im: units(current.im),
        magnitude: units(magnitude),
    }
}

// The units of a number that isn't OUT.
fn units(number: Fix<Micro>) -> i128
    ensures { (z : ℤ) → number ≡ Some z → result ≡ z }
{
    match number.units() {
        Some(units) => units,
        None => 0,
    }
}
