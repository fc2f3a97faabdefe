// What part loads add to the residual in intervals.
ghost use Rattle.std.specs.Prelude.{◌≡◌, ℕ, ◌<◌, cond, eqb, get_or, None, length, All};
ghost use Rattle.std.specs.List.{fold};
ghost use Rattle.fd_pattern.specs.fd_arith.Interval.{sum};
ghost use Rattle.fd_pattern.specs.fd_load.Current.{AreVoltages};
ghost use Rattle.fd_pattern.specs.fd_system.Loads.{nonlinear_parts};
ghost use Rattle.fd_pattern.specs.fd_system.Residual.{IsPlace, whole_state, with_part};
ghost use Rattle.fd_pattern.specs.fd_system.System.{nonlinear_of};
ghost use Rattle.fd_pattern.specs.Conditions.{IsPart};
ghost use Rattle.fd_equations.specs.Enclosure.{with_current, with_drawn};
ghost use Rattle.fd_pattern.specs.Terminals.{IsConnected};

use crate::terminals::{Voltage, voltage_of};
use fd_pattern::{Interval, LoadAt, Micro, NodeAt, current, magnitude_row};

/// Adds to the interval of each row what the part loads add to it at the point x.
pub fn add_load_intervals(rows: &mut [Interval<Micro>], loads: &[LoadAt], x: &[i128])
    requires loads { All (IsConnected (length x.now)) loads.now }
    requires long { length rows.old ≡ length x.now }
    requires parts { All IsPart x.now }
    ensures { (l : ℕ) → l < length rows.old
        → get_or rows.new l None
        ≡ fold (with_part l) (get_or rows.old l None) (nonlinear_of loads.now (whole_state x.now)) }
{
    for load in loads {
        add_load(rows, load, x);
    }
}

// Adds to the interval of each row what a part load adds to it.
fn add_load(rows: &mut [Interval<Micro>], load: &LoadAt, x: &[i128])
    requires load { IsConnected (length x.now) load.now }
    requires long { length rows.old ≡ length x.now }
    requires parts { All IsPart x.now }
    ensures { (l : ℕ) → l < length rows.old
        → get_or rows.new l None
        ≡ fold (with_part l) (get_or rows.old l None) (nonlinear_parts load.now (whole_state x.now)) }
{
    if !load.load.model.is_linear() {
        add_drawn(rows, load, voltage_of(load, x));
    }
}

// Adds the current and the row of the magnitude that a part load has at this voltage.
fn add_drawn(rows: &mut [Interval<Micro>], load: &LoadAt, at: Voltage)
    requires load { IsConnected (length rows.old) load.now }
    requires voltages { AreVoltages at.re at.im at.magnitude }
    ensures { (l : ℕ) → l < length rows.old → get_or rows.new l None ≡ with_drawn l (get_or rows.old l None) load.now at.re at.im at.magnitude }
{
    let current = current(&load.load, at.re, at.im, at.magnitude);
    add_current(rows, load.first, current.re, current.im);
    add_current(rows, load.second, -current.re, -current.im);
    if let Some(place) = load.magnitude {
        let row = magnitude_row(&load.load, at.re, at.im, at.magnitude);
        add_interval(rows, place as usize, row);
    }
}

// Adds a current to the rows of a node; ground has none.
fn add_current(rows: &mut [Interval<Micro>], node: NodeAt, re: Interval<Micro>, im: Interval<Micro>)
    requires place { IsPlace (length rows.old) node }
    ensures { (l : ℕ) → l < length rows.old → get_or rows.new l None ≡ with_current l (get_or rows.old l None) node re im }
{
    match node {
        NodeAt::Ground => {}
        NodeAt::Node(k) => {
            add_interval(rows, 2 * k as usize, re);
            add_interval(rows, 2 * k as usize + 1, im);
        }
    }
}

// Adds an interval to that of a row.
fn add_interval(rows: &mut [Interval<Micro>], row: usize, value: Interval<Micro>)
    requires inside { row < length rows.old }
    ensures { (l : ℕ) → l < length rows.old → get_or rows.new l None ≡ cond (eqb row l) (sum (get_or rows.old l None) value) (get_or rows.old l None) }
{
    rows[row] = rows[row] + value;
}
