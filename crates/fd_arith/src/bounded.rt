// Whole numbers at most 2^120 in size, or OUT.
ghost use Rattle.std.specs.Prelude.{◌≡◌, ℤ, pos, ◌<ℤ◌, ◌≤ℤ◌, ◌^◌, Option, None, Some};
ghost use Rattle.std.specs.Int.RustNames.{unsigned_abs};
ghost use Rattle.fd_arith.specs.Limits.{IsUnits, within};
ghost use Rattle.fd_arith.specs.Wide.{wide_sum, wide_difference, wide_product, wide_size, wide_quotient};

use crate::limit::fits;
use std::marker::Model;
use std::ops::{Add, Sub};

/// A whole number at most 2^120 in size, or OUT. Each call is exact, or OUT exactly where an operand is OUT or the
/// exact result passes 2^120.
#[derive(Clone, Copy, PartialEq, Eq, Debug)]
pub struct Wide {
    number: Option<i128>,
}

impl Model for Wide {
    ghost Value = { Option ℤ };

    ghost view = { λ w. w.number };

    ghost invariant = { λ w. IsUnits w.number };

    ghost inverse = { λ n. record { number = n } };
}

impl Wide {
    /// This number; OUT exactly where it passes 2^120 in size.
    #[inline]
    #[tactic(auto, unfolding(crate::specs::Limits::within))]
    pub fn of(n: i128) -> Wide
        ensures { result ≡ within n }
    {
        if fits(n) {
            Wide { number: Some(n) }
        } else {
            Wide::out()
        }
    }

    /// The number; None exactly at OUT.
    #[inline]
    pub fn value(self) -> Option<i128>
        ensures number { result ≡ self }
        ensures valid { IsUnits result }
    {
        self.number
    }

    #[inline]
    fn out() -> Wide
        ensures { result ≡ None }
    {
        Wide { number: None }
    }

    /// The product.
    #[inline]
    pub fn times(self, other: Wide) -> Wide
        ensures { result ≡ wide_product self other }
    {
        let Some(a) = self.value() else {
            return Wide::out();
        };
        let Some(b) = other.value() else {
            return Wide::out();
        };
        let Some(product) = a.checked_mul(b) else {
            return Wide::out();
        };
        Wide::of(product)
    }

    /// The absolute value.
    #[inline]
    pub fn size(self) -> Wide
        ensures { result ≡ wide_size self }
    {
        let Some(a) = self.value() else {
            return Wide::out();
        };
        Wide::of(a.abs())
    }

    /// The quotient by d rounded up.
    pub fn over_up(self, d: i128) -> Wide
        requires positive { pos 0 <ℤ d }
        requires most { d ≤ℤ pos (10 ^ 32) }
        ensures { result ≡ wide_quotient self (unsigned_abs d) }
    {
        let Some(a) = self.value() else {
            return Wide::out();
        };
        Wide::of(-(-a).div_euclid(d))
    }
}

impl Add for Wide {
    type Output = Wide;

    ghost add_gives = { λ a b r. r ≡ wide_sum a b };

    #[inline]
    fn add(self, other: Wide) -> Wide {
        let Some(a) = self.value() else {
            return Wide::out();
        };
        let Some(b) = other.value() else {
            return Wide::out();
        };
        Wide::of(a + b)
    }
}

impl Sub for Wide {
    type Output = Wide;

    ghost sub_gives = { λ a b r. r ≡ wide_difference a b };

    #[inline]
    fn sub(self, other: Wide) -> Wide {
        let Some(a) = self.value() else {
            return Wide::out();
        };
        let Some(b) = other.value() else {
            return Wide::out();
        };
        Wide::of(a - b)
    }
}
