// Quotients, areas, squares and roots of intervals.
ghost use Rattle.std.specs.Prelude.{◌≡◌, ℤ, pos, ◌*ℤ◌, ◌≤ℤ◌, ◌<ℤ◌, ◌≤◌, ◌^◌, None, Some, int_le, ◌&&◌};
ghost use Rattle.std.specs.Int.RustNames.{unsigned_abs};
ghost use Rattle.fd_arith.specs.Limits.{IsRootUp, non_negative};
ghost use Rattle.fd_arith.specs.Interval.{capped, outward};
ghost use Rattle.fd_arith.specs.Laws.{IsArea, IsQuotient, IsRootEnds, IsSquare};

use crate::quotient::{outward_scaled, outward_whole};
use crate::{Coef, Grid, Interval, Micro, Square};

const MOST_DIVISOR: i128 = 100_000_000_000_000_000_000_000_000_000_000;

impl<G: Grid> Interval<G> {
    /// The quotient in units of 2^-40, rounded outward; ALL where the divisor's lower end isn't positive or its upper
    /// end passes 10^32.
    pub fn div_pos(self, divisor: Interval<G>) -> Interval<Coef>
        ensures { IsQuotient self divisor result }
    {
        let Some((lo, hi)) = self.ends() else {
            return Interval::all();
        };
        let Some((low, high)) = divisor.ends() else {
            return Interval::all();
        };
        if low <= 0 || high > MOST_DIVISOR {
            return Interval::all();
        }
        let at_lo = Interval::scaled_quotient(lo, low).hull(Interval::scaled_quotient(lo, high));
        let at_hi = Interval::scaled_quotient(hi, low).hull(Interval::scaled_quotient(hi, high));
        at_lo.hull(at_hi)
    }

    // n 2^40 / d, rounded outward.
    pub(crate) fn scaled_quotient(n: i128, d: i128) -> Interval<G>
        requires positive { pos 0 <ℤ d }
        requires most { d ≤ℤ pos (10 ^ 32) }
        ensures { result ≡ outward (n *ℤ pos (2 ^ 40)) (unsigned_abs d) }
    {
        Interval::of_ends(outward_scaled(n, d))
    }

    // n / d, rounded outward.
    pub(crate) fn quotient(n: i128, d: i128) -> Interval<G>
        requires { pos 0 <ℤ d }
        ensures { result ≡ outward n (unsigned_abs d) }
    {
        Interval::of_ends(outward_whole(n, d))
    }
}

impl Interval<Micro> {
    /// The least and the greatest product of ends, in units of 10^-12.
    pub fn area(self, other: Interval<Micro>) -> Interval<Square>
        ensures { IsArea self other result }
    {
        let Some((lo, hi)) = self.ends() else {
            return Interval::all();
        };
        let Some((low, high)) = other.ends() else {
            return Interval::all();
        };
        let at_lo = point_product(lo, low).hull(point_product(lo, high));
        let at_hi = point_product(hi, low).hull(point_product(hi, high));
        at_lo.hull(at_hi)
    }

    /// The squares, in units of 10^-12; the lower end is 0 where the interval holds 0.
    pub fn square(self) -> Interval<Square>
        ensures { IsSquare self result }
    {
        let Some((lo, hi)) = self.ends() else {
            return Interval::all();
        };
        let ends = point_product(lo, lo).hull(point_product(hi, hi));
        if holds_zero(lo, hi) {
            ends.hull(Interval::point(0))
        } else {
            ends
        }
    }
}

// Whether 0 lies between two ends.
fn holds_zero(lo: i128, hi: i128) -> bool
    ensures { result ≡ (int_le lo (pos 0) && int_le (pos 0) hi) }
{
    lo <= 0 && 0 <= hi
}

// The product of two ends.
fn point_product(x: i128, y: i128) -> Interval<Square>
    ensures { result ≡ capped (x *ℤ y) (x *ℤ y) }
{
    match x.checked_mul(y) {
        Some(product) => Interval::point(product),
        None => Interval::all(),
    }
}

impl Interval<Square> {
    /// The square root in micro-units: the lower root down, the upper root up, a negative end taken as 0.
    pub fn root(self) -> Interval<Micro>
        ensures { IsRootEnds self result }
    {
        let Some((lo, hi)) = self.ends() else {
            return Interval::all();
        };
        let low = non_negative(lo).isqrt();
        let high = root_up(non_negative(hi));
        Interval::known(low as i128, high as i128)
    }
}

// x, or 0 where it is negative.
fn non_negative(x: i128) -> u128
    ensures { result ≡ non_negative x }
{
    if x < 0 { 0 } else { x as u128 }
}

// The square root of n, rounded up.
fn root_up(n: u128) -> u128
    requires { n ≤ 2 ^ 120 }
    ensures root { IsRootUp n result }
    ensures small { result ≤ 2 ^ 60 }
{
    let down = n.isqrt();
    if down * down == n { down } else { down + 1 }
}
