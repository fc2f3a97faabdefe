// Products of intervals.
ghost use Rattle.std.specs.Prelude.{◌≡◌, ℤ, ◌≤ℤ◌, ◌*ℤ◌, ◌^◌, Option, None, Some, IsTrue, ◌↔◌};
ghost use Rattle.std.specs.Int.{int_min, int_max};
ghost use Rattle.fd_exact.specs.Rounding.{floor_div, ceil_div};
ghost use Rattle.fd_arith.specs.Limits.{IsUnits};
ghost use Rattle.fd_arith.specs.Fix.{nearest};
ghost use Rattle.fd_arith.specs.Interval.{IsBounds, rounded, product};
ghost use Rattle.fd_arith.specs.Laws.{IsProduct};
ghost use Rattle.fd_arith.specs.Products.{IsSmall, IsSmallProduct};

use crate::division::{differ_in_sign, near, outward, over_coef};
use crate::{Coef, Grid, Interval};
use std::ops::Mul;

const SMALL: i128 = 0x8000_0000_0000_0000;

impl<G: Grid> Mul<Interval<Coef>> for Interval<G> {
    type Output = Interval<G>;

    ghost mul_gives = { IsProduct };

    #[inline]
    fn mul(self, factor: Interval<Coef>) -> Interval<G> {
        let Some((lo, hi)) = self.ends() else {
            return Interval::all();
        };
        let Some((low, high)) = factor.ends() else {
            return Interval::all();
        };
        if is_small(lo, hi) && is_small(low, high) {
            small_product(lo, hi, low, high)
        } else {
            large_product(lo, hi, low, high)
        }
    }
}

// Whether the ends of an interval are numbers of 64 bits.
#[inline]
fn is_small(lo: i128, hi: i128) -> bool
    requires { lo ≤ℤ hi }
    ensures { IsTrue result ↔ (IsSmall lo × IsSmall hi) }
{
    -SMALL <= lo && hi <= SMALL
}

// The product of ends of 64 bits, whose products fit 128 bits.
#[inline]
fn small_product<G: Grid>(lo: i128, hi: i128, low: i128, high: i128) -> Interval<G>
    requires lower { IsSmall lo }
    requires upper { IsSmall hi }
    requires lower_factor { IsSmall low }
    requires upper_factor { IsSmall high }
    ensures { result ≡ product (Some (lo, hi)) (Some (low, high)) }
{
    let (a, b, c, d) = (lo * low, lo * high, hi * low, hi * high);
    Interval::known(
        floor_over_coef(lowest(a, b, c, d)),
        ceil_over_coef(highest(a, b, c, d)),
    )
}

#[inline]
fn lowest(a: i128, b: i128, c: i128, d: i128) -> i128
    ensures { result ≡ int_min (int_min a b) (int_min c d) }
{
    a.min(b).min(c.min(d))
}

#[inline]
fn highest(a: i128, b: i128, c: i128, d: i128) -> i128
    ensures { result ≡ int_max (int_max a b) (int_max c d) }
{
    a.max(b).max(c.max(d))
}

#[inline]
fn floor_over_coef(z: i128) -> i128
    ensures { result ≡ floor_div z (2 ^ 40) }
{
    z >> 40
}

#[inline]
fn ceil_over_coef(z: i128) -> i128
    requires { IsSmallProduct z }
    ensures { result ≡ ceil_div z (2 ^ 40) }
{
    -(-z >> 40)
}

// The product of any ends: each product of ends rounded outward, and the hull of these.
fn large_product<G: Grid>(lo: i128, hi: i128, low: i128, high: i128) -> Interval<G>
    ensures { result ≡ product (Some (lo, hi)) (Some (low, high)) }
{
    let at_lo = end_product(lo, low).hull(end_product(lo, high));
    let at_hi = end_product(hi, low).hull(end_product(hi, high));
    at_lo.hull(at_hi)
}

fn end_product<G: Grid>(x: i128, y: i128) -> Interval<G>
    ensures { result ≡ rounded (x *ℤ y) }
{
    Interval::of_ends(rounded_product(x, y))
}

// The two ends of x y / 2^40, rounded outward.
fn rounded_product(x: i128, y: i128) -> Option<(i128, i128)>
    ensures ends { result ≡ rounded (x *ℤ y) }
    ensures valid { IsBounds result }
{
    let negative = differ_in_sign(x, y);
    let Some(division) = over_coef(x.unsigned_abs(), y.unsigned_abs()) else {
        return None;
    };
    outward(division, negative)
}

/// x y / 2^40 to the nearest, or none past the limit.
pub(crate) fn near_product(x: i128, y: i128) -> Option<i128>
    ensures units { result ≡ nearest (x *ℤ y) (2 ^ 40) }
    ensures valid { IsUnits result }
{
    let negative = differ_in_sign(x, y);
    let Some(division) = over_coef(x.unsigned_abs(), y.unsigned_abs()) else {
        return None;
    };
    near(&division, 0x100_0000_0000, negative)
}
