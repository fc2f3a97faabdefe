// An interval on a grid: two ends, or ALL.
ghost use Rattle.std.specs.Prelude.{◌≡◌, ℤ, ◌≤ℤ◌, Option, None, Some};
ghost use Rattle.fd_arith.specs.Limits.{Fits};
ghost use Rattle.fd_arith.specs.Interval.{Bounds, IsBounds, capped};
ghost use Rattle.fd_arith.specs.Laws.{IsSum, IsDifference, IsNegation, IsHull, IsClamped};

use crate::Grid;
use crate::limit::fits;
use std::marker::{Model, PhantomData};
use std::ops::{Add, Neg, Sub};

/// Two ends in whole units of `G`, the lower not above the upper and each at most 2^120 in size, or ALL. It holds
/// each number that lies between its ends; ALL holds every number.
#[derive(Clone, Copy)]
#[derive_where(PartialEq, Eq, Debug)]
pub struct Interval<G: Grid> {
    within: Option<(i128, i128)>,
    grid: PhantomData<G>,
}

impl<G: Grid> Model for Interval<G> {
    ghost Value = { Bounds };

    ghost view = { λ i. i.within };

    ghost invariant = { λ i. IsBounds i.within };

    ghost inverse = { λ e. record { within = e; grid = _ } };
}

impl<G: Grid> Interval<G> {
    /// Both ends `u` units, or ALL past 2^120.
    #[inline]
    pub fn point(u: i128) -> Interval<G>
        ensures { result ≡ capped u u }
    {
        Interval::capped(u, u)
    }

    /// These ends in units, or ALL where one of them passes 2^120.
    #[inline]
    pub fn between(lo: i128, hi: i128) -> Interval<G>
        requires { lo ≤ℤ hi }
        ensures { result ≡ capped lo hi }
    {
        Interval::capped(lo, hi)
    }

    /// ALL, which holds every number.
    #[inline]
    pub fn all() -> Interval<G>
        ensures { result ≡ None }
    {
        Interval {
            within: None,
            grid: PhantomData,
        }
    }

    /// The lower and the upper end in units; None exactly at ALL.
    #[inline]
    pub fn ends(self) -> Option<(i128, i128)>
        ensures ends { result ≡ self }
        ensures valid { IsBounds result }
    {
        self.within
    }

    /// The least interval that holds both.
    #[inline]
    pub fn hull(self, other: Interval<G>) -> Interval<G>
        ensures { IsHull self other result }
    {
        let Some((lo, hi)) = self.ends() else {
            return Interval::all();
        };
        let Some((low, high)) = other.ends() else {
            return Interval::all();
        };
        Interval::known(lo.min(low), hi.max(high))
    }

    /// Both ends brought into `lo` to `hi`; ALL gives `lo` to `hi`.
    pub fn clamp(self, lo: i128, hi: i128) -> Interval<G>
        requires { lo ≤ℤ hi }
        ensures { IsClamped self lo hi result }
    {
        let Some((low, high)) = self.ends() else {
            return Interval::capped(lo, hi);
        };
        Interval::capped(low.max(lo).min(hi), high.max(lo).min(hi))
    }

    #[inline]
    #[tactic(auto, unfolding(crate::specs::Interval::capped))]
    fn capped(lo: i128, hi: i128) -> Interval<G>
        requires { lo ≤ℤ hi }
        ensures { result ≡ capped lo hi }
    {
        if fits(lo) && fits(hi) {
            Interval {
                within: Some((lo, hi)),
                grid: PhantomData,
            }
        } else {
            Interval {
                within: None,
                grid: PhantomData,
            }
        }
    }

    // These ends, which are within the limit.
    #[inline]
    pub(crate) fn known(lo: i128, hi: i128) -> Interval<G>
        requires lower { Fits lo }
        requires upper { Fits hi }
        requires order { lo ≤ℤ hi }
        ensures { result ≡ Some (lo, hi) }
    {
        Interval {
            within: Some((lo, hi)),
            grid: PhantomData,
        }
    }

    // What a quotient or a product gave.
    #[inline]
    pub(crate) fn of_ends(ends: Option<(i128, i128)>) -> Interval<G>
        requires { IsBounds ends }
        ensures { result ≡ ends }
    {
        Interval {
            within: ends,
            grid: PhantomData,
        }
    }
}

impl<G: Grid> Add for Interval<G> {
    type Output = Interval<G>;

    ghost add_gives = { IsSum };

    #[inline]
    fn add(self, other: Interval<G>) -> Interval<G> {
        let Some((lo, hi)) = self.ends() else {
            return Interval::all();
        };
        let Some((low, high)) = other.ends() else {
            return Interval::all();
        };
        Interval::capped(lo + low, hi + high)
    }
}

impl<G: Grid> Sub for Interval<G> {
    type Output = Interval<G>;

    ghost sub_gives = { IsDifference };

    #[inline]
    fn sub(self, other: Interval<G>) -> Interval<G> {
        let Some((lo, hi)) = self.ends() else {
            return Interval::all();
        };
        let Some((low, high)) = other.ends() else {
            return Interval::all();
        };
        Interval::capped(lo - high, hi - low)
    }
}

impl<G: Grid> Neg for Interval<G> {
    type Output = Interval<G>;

    ghost neg_gives = { IsNegation };

    #[inline]
    fn neg(self) -> Interval<G> {
        let Some((lo, hi)) = self.ends() else {
            return Interval::all();
        };
        Interval::known(-hi, -lo)
    }
}
