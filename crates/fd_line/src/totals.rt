// The impedance and the capacitance of a whole line.
ghost use Rattle.std.specs.Prelude.{◌≡◌, ℕ, ◌*◌, ◌+◌, ◌<◌, ◌≤◌, ◌^◌, nat_abs, length};
ghost use Rattle.fd_system.specs.fd_exact.Fractions.{fraction};
ghost use Rattle.fd_system.specs.fd_exact.States.{cell};
ghost use Rattle.fd_line.specs.Totals.{IsLine, angular_frequency, capacitance_of, over_length, reactance_of, resistance_of};

use crate::data::{ChargeForm, Entries, LineData, LineForm};
use fd_system::{floor_of_product, thirds};

// what 10^-18 ohm and 10^-27 farad are counted in
const PER_OHM_STEP: u128 = 1_000_000;

const PER_FARAD_STEP: u128 = 1_000_000_000_000;

/// The resistance between phases k and m over the whole line, in whole 10^-12 ohm and rounded down: the real part of an entry of its
/// series impedance (Kersting, series impedance of lines).
pub fn resistance(line: &LineData, k: u32, m: u32) -> i128
    requires line { IsLine line.now }
    requires k_in { k < line.now.phases }
    requires m_in { m < line.now.phases }
    ensures value { result ≡ resistance_of line.now k m }
    ensures within { nat_abs result ≤ 10 ^ 30 }
{
    match &line.form {
        LineForm::Sequence { r1, r0, .. } => {
            along(line, thirds(*r1, *r0, k, m), 3, PER_OHM_STEP)
        }
        LineForm::Matrix { r, .. } => { along(line, entry(r, line.phases, k, m), 1, PER_OHM_STEP) }
    }
}

/// The reactance between phases k and m over the whole line, in whole 10^-12 ohm and rounded down: the imaginary part of an entry of
/// its series impedance (Kersting, series impedance of lines).
pub fn reactance(line: &LineData, k: u32, m: u32) -> i128
    requires line { IsLine line.now }
    requires k_in { k < line.now.phases }
    requires m_in { m < line.now.phases }
    ensures value { result ≡ reactance_of line.now k m }
    ensures within { nat_abs result ≤ 10 ^ 30 }
{
    match &line.form {
        LineForm::Sequence { x1, x0, .. } => {
            along(line, thirds(*x1, *x0, k, m), 3, PER_OHM_STEP)
        }
        LineForm::Matrix { x, .. } => { along(line, entry(x, line.phases, k, m), 1, PER_OHM_STEP) }
    }
}

/// The capacitance between phases k and m over the whole line, in whole 10^-15 farad.
pub fn capacitance(line: &LineData, k: u32, m: u32) -> i128
    requires line { IsLine line.now }
    requires k_in { k < line.now.phases }
    requires m_in { m < line.now.phases }
    ensures value { result ≡ capacitance_of line.now k m }
    ensures within { nat_abs result ≤ 16093440 * 10 ^ 16 }
{
    match &line.charge {
        ChargeForm::Sequence { c1, c0 } => {
            along(line, thirds(*c1, *c0, k, m), 3, PER_FARAD_STEP)
        }
        ChargeForm::Matrix { c } => { along(line, entry(c, line.phases, k, m), 1, PER_FARAD_STEP) }
    }
}

/// Two pi times the frequency, in whole 10^-12.
pub fn radians(line: &LineData) -> i128
    ensures value { result ≡ angular_frequency line.now.hertz }
    ensures most { nat_abs result ≤ 376991118430775 }
{
    if line.hertz == 50 {
        314_159_265_358_979
    } else {
        376_991_118_430_775
    }
}

// The entry top / over, both in 10^-9, along the whole line, in whole `grid` 10^-18 and rounded down.
fn along(line: &LineData, top: i128, over: u128, grid: u128) -> i128
    requires line { IsLine line.now }
    requires over_some { 1 ≤ over }
    requires over_few { over ≤ 3 }
    requires top { nat_abs top ≤ over * 10 ^ 15 }
    requires grid_least { 10 ^ 6 ≤ grid }
    requires grid_most { grid ≤ 10 ^ 12 }
    ensures value { result ≡ over_length line.now (fraction top over) grid }
    ensures within { (q : ℕ) → 16093440 * 10 ^ 28 ≤ q * grid → nat_abs result ≤ q }
{
    let factor = line.length.unsigned_abs() * line.line_unit as u128;
    let divisor = over * (grid * line.code_unit as u128);
    floor_of_product(top, factor, divisor)
}

// The entry in row k and column m of a matrix with n rows and columns.
fn entry(entries: &Entries, n: u32, k: u32, m: u32) -> i128
    requires few { n ≤ 3 }
    requires count { length entries.now ≡ n * n }
    requires k_in { k < n }
    requires m_in { m < n }
    ensures { result ≡ cell entries.now n k m }
{
    entries.as_slice()[(k * n + m) as usize]
}
