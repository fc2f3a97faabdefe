// The radii of constant power: the current is n / c, where c is the square of the voltage, brought between the squares of the limits.
ghost use Rattle.std.specs.Prelude.{◌≡◌, ◌+◌, ◌*◌, ◌^◌, ◌<◌, ◌≤◌, max, nat_abs, nat_le, ◌&&◌, ◌||◌, true};
ghost use Rattle.fd_load.specs.fd_system.Loads.{square_of};
ghost use Rattle.fd_load.specs.Current.{IsLoadPhase, clamped_square as square_within, largest};
ghost use Rattle.fd_slope.specs.Radii.{at_scale as quotient_up, full_draw as draw_of, least_square as least_square_of, power_radius as radius_by_case, power_radius_with, product_up as product_of, square_moves as moves_of, square_stays_inside as stays_inside, square_stays_outside as stays_outside, turned_across as turned_where_straddled, turned_inside as turned_within};
ghost use Rattle.fd_slope.specs.Boxes.{IsAround};

use crate::around::Around;
use crate::rounding::{at_scale, product_up};
use fd_load::{LoadPhase, clamped_square, square};

// microamperes in units of a thousandth of a volt-ampere times a microvolt over a squared microvolt
const PER_UNIT: u128 = 1_000_000_000;

/// The radius of each slope of the current in p and in q, in whole 2^-40.
pub fn power_radius(load: &LoadPhase, b: &Around) -> u128
    requires load { IsLoadPhase load.now }
    requires around { IsAround b.now }
    ensures value { result ≡ radius_by_case load.now b.now.p b.now.q b.now.rp b.now.rq }
    ensures most { result ≤ 2 ^ 100 }
{
    if square_stays_inside(load, b) {
        radius_inside(load, b)
    } else if square_stays_outside(load, b) {
        0
    } else {
        radius_across(load, b)
    }
}

// The radius where the square stays within the squares of the limits.
fn radius_inside(load: &LoadPhase, b: &Around) -> u128
    requires load { IsLoadPhase load.now }
    requires around { IsAround b.now }
    requires inside { stays_inside load.now b.now.p b.now.q b.now.rp b.now.rq ≡ true }
    ensures value { result ≡ power_radius_with load.now b.now.p b.now.q b.now.rp b.now.rq (turned_within load.now b.now.p b.now.q b.now.rp b.now.rq) }
    ensures most { result ≤ 2 ^ 100 }
{
    radius_with(load, b, turned_inside(load, b))
}

// The same where a limit is straddled.
fn radius_across(load: &LoadPhase, b: &Around) -> u128
    requires load { IsLoadPhase load.now }
    requires around { IsAround b.now }
    ensures value { result ≡ power_radius_with load.now b.now.p b.now.q b.now.rp b.now.rq (turned_where_straddled load.now b.now.p b.now.q b.now.rp b.now.rq) }
    ensures most { result ≤ 2 ^ 100 }
{
    radius_with(load, b, turned_across(load, b))
}

// The radius, where the voltage's own change adds x.
fn radius_with(load: &LoadPhase, b: &Around, x: u128) -> u128
    requires load { IsLoadPhase load.now }
    requires around { IsAround b.now }
    requires turned { x ≤ 2 ^ 86 }
    ensures value { result ≡ power_radius_with load.now b.now.p b.now.q b.now.rp b.now.rq x }
    ensures most { result ≤ 2 ^ 100 }
{
    product_up(admittance(load, b), moved(load, b) + x)
}

// The sum of the powers' sizes over the clamped square, in units of 2^-40 siemens.
fn admittance(load: &LoadPhase, b: &Around) -> u128
    requires load { IsLoadPhase load.now }
    requires around { IsAround b.now }
    ensures value { result ≡ quotient_up (draw_of load.now) (square_within load.now b.now.p b.now.q) }
    ensures most { result ≤ 2 ^ 52 }
{
    at_scale(full_draw(load), clamped_square(load, b.p, b.q))
}

/// 10^9 times the sum of the sizes of the powers.
pub fn full_draw(load: &LoadPhase) -> u128
    requires load { IsLoadPhase load.now }
    ensures value { result ≡ draw_of load.now }
    ensures most { result ≤ 10 ^ 20 }
    ensures admittance { result ≤ 2 ^ 12 * (nat_abs load.now.vlo * nat_abs load.now.vlo) }
{
    PER_UNIT * (load.p.unsigned_abs() + load.q.unsigned_abs())
}

// How far the square of the voltage moves in the box, at most.
fn square_moves(b: &Around) -> u128
    requires around { IsAround b.now }
    ensures value { result ≡ moves_of b.now.p b.now.q b.now.rp b.now.rq }
    ensures most { result ≤ 6 * 2 ^ 82 }
{
    (2 * b.p.unsigned_abs() + b.rp) * b.rp + (2 * b.q.unsigned_abs() + b.rq) * b.rq
}

// The least clamped square in the box, or less.
fn least_square(load: &LoadPhase, b: &Around) -> u128
    requires load { IsLoadPhase load.now }
    requires around { IsAround b.now }
    ensures value { result ≡ least_square_of load.now b.now.p b.now.q b.now.rp b.now.rq }
    ensures least { 4 * 10 ^ 12 ≤ result }
    ensures most { result ≤ 4 * 10 ^ 24 }
{
    let left = clamped_square(load, b.p, b.q).saturating_sub(square_moves(b));
    greater(low_square(load), left)
}

/// The greater of two numbers.
pub fn greater(x: u128, y: u128) -> u128
    ensures { result ≡ max x y }
{
    if x < y { y } else { x }
}

// How far the square moves over the least square, in units of 2^-40.
fn moved(load: &LoadPhase, b: &Around) -> u128
    requires load { IsLoadPhase load.now }
    requires around { IsAround b.now }
    ensures value { result ≡ quotient_up (moves_of b.now.p b.now.q b.now.rp b.now.rq) (least_square_of load.now b.now.p b.now.q b.now.rp b.now.rq) }
    ensures most { result ≤ 2 ^ 84 }
{
    at_scale(square_moves(b), least_square(load, b))
}

// The square of the lower limit.
fn low_square(load: &LoadPhase) -> u128
    requires load { IsLoadPhase load.now }
    ensures value { result ≡ nat_abs load.now.vlo * nat_abs load.now.vlo }
    ensures least { 4 * 10 ^ 12 ≤ result }
    ensures most { result ≤ 4 * 10 ^ 24 }
{
    load.vlo.unsigned_abs() * load.vlo.unsigned_abs()
}

// The square of the upper limit.
fn high_square(load: &LoadPhase) -> u128
    requires load { IsLoadPhase load.now }
    ensures value { result ≡ nat_abs load.now.vhi * nat_abs load.now.vhi }
    ensures most { result ≤ 4 * 10 ^ 24 }
{
    load.vhi.unsigned_abs() * load.vhi.unsigned_abs()
}

// The square of the voltage.
fn voltage_square(b: &Around) -> u128
    requires around { IsAround b.now }
    ensures value { result ≡ square_of b.now.p b.now.q }
    ensures most { result ≤ 2 ^ 83 }
{
    square(b.p, b.q)
}

// Whether x stays between two limits, where it moves by this.
fn stays_between(x: u128, moves: u128, low: u128, high: u128) -> bool
    requires x_most { x ≤ 2 ^ 83 }
    requires moves_most { moves ≤ 6 * 2 ^ 82 }
    requires low_most { low ≤ 10 ^ 24 }
    ensures { result ≡ (nat_le (low + moves) x && nat_le (x + moves) high) }
{
    low + moves <= x && x + moves <= high
}

// Whether it stays outside of them.
fn stays_beyond(x: u128, moves: u128, low: u128, high: u128) -> bool
    requires x_most { x ≤ 2 ^ 83 }
    requires moves_most { moves ≤ 6 * 2 ^ 82 }
    requires high_most { high ≤ 4 * 10 ^ 24 }
    ensures { result ≡ (nat_le (x + moves) low || nat_le (high + moves) x) }
{
    x + moves <= low || high + moves <= x
}

// Whether the square stays within the squares of the limits.
fn square_stays_inside(load: &LoadPhase, b: &Around) -> bool
    requires load { IsLoadPhase load.now }
    requires around { IsAround b.now }
    ensures { result ≡ stays_inside load.now b.now.p b.now.q b.now.rp b.now.rq }
{
    stays_between(
        voltage_square(b),
        square_moves(b),
        low_square(load),
        high_square(load),
    )
}

// Whether the square stays outside of them.
fn square_stays_outside(load: &LoadPhase, b: &Around) -> bool
    requires load { IsLoadPhase load.now }
    requires around { IsAround b.now }
    ensures { result ≡ stays_outside load.now b.now.p b.now.q b.now.rp b.now.rq }
{
    stays_beyond(
        voltage_square(b),
        square_moves(b),
        low_square(load),
        high_square(load),
    )
}

/// The greater size of the parts of the voltage.
pub fn greatest_part(b: &Around) -> u128
    requires around { IsAround b.now }
    ensures value { result ≡ largest b.now.p b.now.q }
    ensures most { result ≤ 2 ^ 41 }
{
    greater(b.p.unsigned_abs(), b.q.unsigned_abs())
}

// The square of the greater part over the clamped square, in units of 2^-40.
fn part_ratio(load: &LoadPhase, b: &Around) -> u128
    requires load { IsLoadPhase load.now }
    requires around { IsAround b.now }
    requires inside { largest b.now.p b.now.q * largest b.now.p b.now.q ≤ square_within load.now b.now.p b.now.q }
    ensures value { result ≡ quotient_up (largest b.now.p b.now.q * largest b.now.p b.now.q) (square_within load.now b.now.p b.now.q) }
    ensures most { result ≤ 2 ^ 40 }
{
    let part = greatest_part(b);
    at_scale(part * part, clamped_square(load, b.p, b.q))
}

// Twice that ratio, times how far the square moves.
fn square_turned(load: &LoadPhase, b: &Around) -> u128
    requires load { IsLoadPhase load.now }
    requires around { IsAround b.now }
    requires inside { largest b.now.p b.now.q * largest b.now.p b.now.q ≤ square_within load.now b.now.p b.now.q }
    ensures value { result
        ≡ product_of (2
        * quotient_up (largest b.now.p b.now.q * largest b.now.p b.now.q) (square_within load.now b.now.p b.now.q))
        (quotient_up (moves_of b.now.p b.now.q b.now.rp b.now.rq)
        (least_square_of load.now b.now.p b.now.q b.now.rp b.now.rq)) }
    ensures most { result ≤ 2 ^ 85 }
{
    product_up(2 * part_ratio(load, b), moved(load, b))
}

// What the voltage's own change adds inside.
fn turned_inside(load: &LoadPhase, b: &Around) -> u128
    requires load { IsLoadPhase load.now }
    requires around { IsAround b.now }
    requires inside { largest b.now.p b.now.q * largest b.now.p b.now.q ≤ square_within load.now b.now.p b.now.q }
    ensures value { result ≡ turned_within load.now b.now.p b.now.q b.now.rp b.now.rq }
    ensures most { result ≤ 2 ^ 86 }
{
    across(load, b, greater(b.rp, b.rq)) + square_turned(load, b)
}

// The same where a limit is straddled.
fn turned_across(load: &LoadPhase, b: &Around) -> u128
    requires load { IsLoadPhase load.now }
    requires around { IsAround b.now }
    ensures value { result ≡ turned_where_straddled load.now b.now.p b.now.q b.now.rp b.now.rq }
    ensures most { result ≤ 2 ^ 86 }
{
    let width = 2 * greatest_part(b) + greater(b.rp, b.rq);
    across(load, b, width)
}

// The greater part times a width over the least square, in units of 2^-40.
fn across(load: &LoadPhase, b: &Around, width: u128) -> u128
    requires load { IsLoadPhase load.now }
    requires around { IsAround b.now }
    requires width { width ≤ 3 * 2 ^ 41 }
    ensures value { result ≡ quotient_up (largest b.now.p b.now.q * width) (least_square_of load.now b.now.p b.now.q b.now.rp b.now.rq) }
    ensures most { result ≤ 2 ^ 82 }
{
    at_scale(greatest_part(b) * width, least_square(load, b))
}
