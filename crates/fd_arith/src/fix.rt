// A whole number of units on a grid, or OUT.
ghost use Rattle.std.specs.Prelude.{◌≡◌, ℤ, pos, ◌≤ℤ◌, Option, None, Some, ◌*ℤ◌, ◌<ℤ◌, ◌^◌};
ghost use Rattle.std.specs.Int.RustNames.{unsigned_abs};
ghost use Rattle.fd_arith.specs.Limits.{IsUnits, within};
ghost use Rattle.fd_arith.specs.Fix.{fix_sum, fix_difference, fix_negation, fix_product, nearest};

use crate::limit::fits;
use crate::multiply::near_product;
use crate::quotient::{near_scaled, near_whole};
use crate::{Coef, Grid};
use std::marker::{Model, PhantomData};
use std::ops::{Add, Neg, Sub};

/// A whole number of units of `G`, at most 2^120 in size, or OUT.
#[derive(Clone, Copy)]
#[derive_where(PartialEq, Eq, Debug)]
pub struct Fix<G: Grid> {
    units: Option<i128>,
    grid: PhantomData<G>,
}

impl<G: Grid> Model for Fix<G> {
    ghost Value = { Option ℤ };

    ghost view = { λ f. f.units };

    ghost invariant = { λ f. IsUnits f.units };

    ghost inverse = { λ u. record { units = u; grid = _ } };
}

impl<G: Grid> Fix<G> {
    /// This number of units; OUT exactly where it passes 2^120 in size.
    #[inline]
    #[tactic(auto, unfolding(crate::specs::Limits::within))]
    pub fn new(units: i128) -> Fix<G>
        ensures { result ≡ within units }
    {
        if fits(units) {
            Fix {
                units: Some(units),
                grid: PhantomData,
            }
        } else {
            Fix::out()
        }
    }

    /// The number of units; None exactly at OUT.
    #[inline]
    pub fn units(self) -> Option<i128>
        ensures units { result ≡ self }
        ensures valid { IsUnits result }
    {
        self.units
    }

    #[inline]
    fn out() -> Fix<G>
        ensures { result ≡ None }
    {
        Fix {
            units: None,
            grid: PhantomData,
        }
    }

    // n 2^40 / d to the nearest.
    pub(crate) fn scaled_quotient(n: i128, d: i128) -> Fix<G>
        requires positive { pos 0 <ℤ d }
        requires most { d ≤ℤ pos (10 ^ 32) }
        ensures { result ≡ nearest (n *ℤ pos (2 ^ 40)) (unsigned_abs d) }
    {
        Fix {
            units: near_scaled(n, d),
            grid: PhantomData,
        }
    }

    // n / d to the nearest.
    pub(crate) fn quotient(n: i128, d: i128) -> Fix<G>
        requires { pos 0 <ℤ d }
        ensures { result ≡ nearest n (unsigned_abs d) }
    {
        Fix {
            units: near_whole(n, d),
            grid: PhantomData,
        }
    }

    // The product with a coefficient, to the nearest.
    pub(crate) fn product(self, factor: Fix<Coef>) -> Fix<G>
        ensures { result ≡ fix_product self factor }
    {
        let Some(a) = self.units() else {
            return Fix::out();
        };
        let Some(f) = factor.units() else {
            return Fix::out();
        };
        Fix {
            units: near_product(a, f),
            grid: PhantomData,
        }
    }
}

impl<G: Grid> Add for Fix<G> {
    type Output = Fix<G>;

    ghost add_gives = { λ a b r. r ≡ fix_sum a b };

    #[inline]
    fn add(self, other: Fix<G>) -> Fix<G> {
        let Some(a) = self.units() else {
            return Fix::out();
        };
        let Some(b) = other.units() else {
            return Fix::out();
        };
        Fix::new(a + b)
    }
}

impl<G: Grid> Sub for Fix<G> {
    type Output = Fix<G>;

    ghost sub_gives = { λ a b r. r ≡ fix_difference a b };

    #[inline]
    fn sub(self, other: Fix<G>) -> Fix<G> {
        let Some(a) = self.units() else {
            return Fix::out();
        };
        let Some(b) = other.units() else {
            return Fix::out();
        };
        Fix::new(a - b)
    }
}

impl<G: Grid> Neg for Fix<G> {
    type Output = Fix<G>;

    ghost neg_gives = { λ a r. r ≡ fix_negation a };

    #[inline]
    fn neg(self) -> Fix<G> {
        let Some(a) = self.units() else {
            return Fix::out();
        };
        Fix::new(-a)
    }
}
