// The radii of constant current: the current is n / (Vn c), where c is the magnitude, brought between the limits.
ghost use Rattle.std.specs.Prelude.{◌≡◌, ◌*◌, ◌^◌, ◌<◌, ◌≤◌, pos, ◌+ℤ◌, nat_abs};
ghost use Rattle.fd_load.specs.Current.{IsLoadPhase, clamped_magnitude as magnitude_within, largest};
ghost use Rattle.fd_slope.specs.Radii.{IsRadiusRow, admittance_up as admittance_of, at_scale as quotient_up, least_magnitude as least_magnitude_of, magnitude_radius as radius_by_case, magnitude_radius_across, magnitude_radius_inside, magnitude_stays_inside as stays_inside, magnitude_stays_outside as stays_outside, product_up as product_of, radius_row, voltage_radius as voltage_radius_by_case, voltage_radius_with};
ghost use Rattle.fd_slope.specs.Boxes.{IsAround};

use crate::around::Around;
use crate::power::{full_draw, greater, greatest_part};
use crate::radii::RadiusRow;
use crate::rounding::{at_scale, product_up};
use fd_load::{LoadPhase, clamped_magnitude, nominal_times_magnitude};

/// The radius of each slope of the current in p and in q, in whole 2^-40.
pub fn voltage_radius(load: &LoadPhase, b: &Around) -> u128
    requires load { IsLoadPhase load.now }
    requires around { IsAround b.now }
    ensures value { result ≡ voltage_radius_by_case load.now b.now.m b.now.rm }
    ensures most { result ≤ 2 ^ 100 }
{
    if stays_inside(load, b) {
        voltage_radius_across(load, b)
    } else if stays_outside(load, b) {
        0
    } else {
        voltage_radius_across(load, b)
    }
}

// The same inside and where a limit is straddled.
fn voltage_radius_across(load: &LoadPhase, b: &Around) -> u128
    requires load { IsLoadPhase load.now }
    requires around { IsAround b.now }
    ensures value { result ≡ voltage_radius_with load.now b.now.m b.now.rm }
    ensures most { result ≤ 2 ^ 100 }
{
    product_up(admittance_up(load, b), moved(load, b))
}

/// The radius of each slope of the current in m, in whole 2^-40.
pub fn magnitude_radius(load: &LoadPhase, b: &Around) -> u128
    requires load { IsLoadPhase load.now }
    requires around { IsAround b.now }
    ensures value { result ≡ radius_by_case load.now b.now.p b.now.q b.now.m b.now.rm }
    ensures most { result ≤ 2 ^ 100 }
{
    if stays_inside(load, b) {
        radius_inside(load, b)
    } else if stays_outside(load, b) {
        0
    } else {
        radius_across(load, b)
    }
}

// The radius in m where the magnitude stays within the limits.
fn radius_inside(load: &LoadPhase, b: &Around) -> u128
    requires load { IsLoadPhase load.now }
    requires around { IsAround b.now }
    ensures value { result ≡ magnitude_radius_inside load.now b.now.p b.now.q b.now.m b.now.rm }
    ensures most { result ≤ 2 ^ 100 }
{
    let turned = part_moved(load, b);
    product_up(admittance_up(load, b), turned)
}

// The greater part over the clamped magnitude, times how far the magnitude moves.
fn part_moved(load: &LoadPhase, b: &Around) -> u128
    requires load { IsLoadPhase load.now }
    requires around { IsAround b.now }
    ensures value { result
        ≡ product_of (quotient_up (largest b.now.p b.now.q) (magnitude_within load.now b.now.m))
        (quotient_up b.now.rm (least_magnitude_of load.now b.now.m b.now.rm)) }
    ensures most { result ≤ 2 ^ 83 }
{
    let part = at_scale(greatest_part(b), clamped_magnitude(load, b.m));
    product_up(part, moved(load, b))
}

// The radius in m where a limit is straddled.
fn radius_across(load: &LoadPhase, b: &Around) -> u128
    requires load { IsLoadPhase load.now }
    requires around { IsAround b.now }
    ensures value { result ≡ magnitude_radius_across load.now b.now.p b.now.q b.now.m b.now.rm }
    ensures most { result ≤ 2 ^ 100 }
{
    let part = at_scale(greatest_part(b), least_magnitude(load, b));
    product_up(admittance_up(load, b), part)
}

/// The radii of the row of the magnitude, in whole 2^-40.
pub fn row_radii(load: &LoadPhase, b: &Around) -> RadiusRow
    requires load { IsLoadPhase load.now }
    requires around { IsAround b.now }
    ensures value { result
        ≡ radius_row (quotient_up b.now.rp (nat_abs load.now.vn)) (quotient_up b.now.rq (nat_abs load.now.vn))
        (quotient_up b.now.rm (nat_abs load.now.vn)) }
    ensures most { IsRadiusRow result }
{
    let vn = load.vn.unsigned_abs();
    RadiusRow {
        p: at_scale(b.rp, vn),
        q: at_scale(b.rq, vn),
        m: at_scale(b.rm, vn),
    }
}

// The sum of the powers' sizes over the denominator at the centre.
fn admittance_up(load: &LoadPhase, b: &Around) -> u128
    requires load { IsLoadPhase load.now }
    ensures value { result ≡ admittance_of load.now b.now.m }
    ensures most { result ≤ 2 ^ 52 }
{
    at_scale(full_draw(load), nominal_times_magnitude(load, b.m))
}

// The least clamped magnitude in the box, or less.
fn least_magnitude(load: &LoadPhase, b: &Around) -> u128
    requires load { IsLoadPhase load.now }
    ensures value { result ≡ least_magnitude_of load.now b.now.m b.now.rm }
    ensures least { 2 * 10 ^ 6 ≤ result }
    ensures most { result ≤ 2 * 10 ^ 12 }
{
    let left = clamped_magnitude(load, b.m).saturating_sub(b.rm);
    greater(load.vlo.unsigned_abs(), left)
}

// How far the magnitude moves over the least magnitude, in units of 2^-40.
fn moved(load: &LoadPhase, b: &Around) -> u128
    requires load { IsLoadPhase load.now }
    requires around { IsAround b.now }
    ensures value { result ≡ quotient_up b.now.rm (least_magnitude_of load.now b.now.m b.now.rm) }
    ensures most { result ≤ 2 ^ 62 }
{
    at_scale(b.rm, least_magnitude(load, b))
}

// Whether the magnitude stays within the limits.
fn stays_inside(load: &LoadPhase, b: &Around) -> bool
    requires load { IsLoadPhase load.now }
    requires around { IsAround b.now }
    ensures { result ≡ stays_inside load.now b.now.m b.now.rm }
{
    let (low, high) = (above(load.vlo, b.rm), above(b.m, b.rm));
    low <= b.m && high <= load.vhi
}

// Whether it stays outside of them.
fn stays_outside(load: &LoadPhase, b: &Around) -> bool
    requires load { IsLoadPhase load.now }
    requires around { IsAround b.now }
    ensures { result ≡ stays_outside load.now b.now.m b.now.rm }
{
    let (low, high) = (above(b.m, b.rm), above(load.vhi, b.rm));
    low <= load.vlo || high <= b.m
}

// x and a width more.
fn above(x: i128, width: u128) -> i128
    requires number { nat_abs x ≤ 2 ^ 41 }
    requires width { width ≤ 2 ^ 41 }
    ensures value { result ≡ x +ℤ pos width }
    ensures small { nat_abs result ≤ 2 ^ 42 }
{
    x + width as i128
}
