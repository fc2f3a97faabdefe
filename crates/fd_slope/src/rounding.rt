// Quotients and products of numbers of 2^-40, rounded up.
ghost use Rattle.std.specs.Prelude.{◌≡◌, ℕ, ◌*◌, ◌^◌, ◌<◌, ◌≤◌};
ghost use Rattle.fd_slope.specs.Radii.{at_scale as quotient_up, product_up as rounded_product};

use fd_load::{Coef, Interval, ceil_at};

/// n / d in units of 2^-40, rounded up.
pub fn at_scale(n: u128, d: u128) -> u128
    requires positive { 0 < d }
    requires divisor { d ≤ 4 * 10 ^ 24 }
    requires number { n ≤ 2 ^ 100 }
    requires small { n * 2 ^ 40 ≤ 2 ^ 99 * d }
    ensures value { result ≡ quotient_up n d }
    ensures within { (k : ℕ) → n * 2 ^ 40 ≤ k * d → result ≤ k }
{
    ceil_at(n as i128, d as i128).unwrap() as u128
}

/// The product of two numbers of units, rounded up.
pub fn product_up(x: u128, y: u128) -> u128
    requires first { x ≤ 2 ^ 61 }
    requires second { y ≤ 2 ^ 98 }
    ensures value { result ≡ rounded_product x y }
    ensures within { (k : ℕ) → x * y ≤ k * 2 ^ 40 → result ≤ k }
{
    let factor: Interval<Coef> = Interval::point(y as i128);
    let product = Interval::<Coef>::point(x as i128) * factor;
    let (_, high) = product.ends().unwrap();
    high as u128
}
