// What the two arithmetics share: numbers rounded to the nearest, and intervals rounded outward.
ghost use Rattle.std.specs.Prelude.{◌≡◌, ℕ, ℤ, pos, ◌*ℤ◌, ◌≤ℤ◌, ◌<ℤ◌, ◌<◌, ◌^◌};
ghost use Rattle.std.specs.Int.RustNames.{unsigned_abs};
ghost use Rattle.fd_exact.specs.Fractions.{Fraction, fraction, ◌⊕◌, ◌⊖◌, ◌⊗◌, opposite, Same};
ghost use Rattle.fd_arith.specs.Limits.{within};
ghost use Rattle.fd_arith.specs.Interval.{Holds, HoldsCoef, capped, sum, difference, negation, product, outward};
ghost use Rattle.fd_arith.specs.Fix.{fix_sum, fix_difference, fix_negation, fix_product, nearest};

use crate::{Coef, Fix, Interval, Micro};
use std::ops::{Add, Neg, Sub};

/// An arithmetic of micro-units, so that code over it is written and proved once. `Fix<Micro>` rounds to the nearest
/// and encloses nothing; `Interval<Micro>` rounds outward and encloses each exact result. Fractions here are in whole
/// micro-units, and a factor's is a plain number.
pub trait Enclose: Copy + Add<Output = Self> + Sub<Output = Self> + Neg<Output = Self> {
    /// A coefficient of this arithmetic.
    type Factor: Copy;

    // the type's own operators
    ghost plus: { Self → Self → Self };

    ghost minus: { Self → Self → Self };

    ghost negated: { Self → Self };

    ghost scaled: { Self → Self.Factor → Self };

    // a whole number, and the quotient n / d as a coefficient and as a value
    ghost exactly: { ℤ → Self };

    ghost factor_of: { ℤ → ℕ → Self.Factor };

    ghost ratio_of: { ℤ → ℕ → Self };

    // that a value or a factor encloses a number; true of every number where the type encloses none
    ghost Encloses: { Self → Fraction → Type 0 };

    ghost FactorEncloses: { Self.Factor → Fraction → Type 0 };

    /// A whole number of micro-units.
    fn exact(units: i128) -> Self
        ensures { result ≡ exactly units };

    /// The number n / d as a coefficient.
    fn factor(n: i128, d: i128) -> Self::Factor
        requires positive { pos 0 <ℤ d }
        requires most { d ≤ℤ pos (10 ^ 32) }
        ensures { result ≡ factor_of n (unsigned_abs d) };

    /// The product with a coefficient.
    fn times(self, factor: Self::Factor) -> Self
        ensures { result ≡ scaled self factor };

    /// n / d micro-units.
    fn ratio(n: i128, d: i128) -> Self
        requires positive { pos 0 <ℤ d }
        requires most { d ≤ℤ pos (10 ^ 32) }
        ensures { result ≡ ratio_of n (unsigned_abs d) };

    ghost can_plus: { (a b : Self) → Self.can_add a b };

    ghost can_minus: { (a b : Self) → Self.can_sub a b };

    ghost can_negate: { (a : Self) → Self.can_neg a };

    ghost plus_is: { (a b r : Self) → Self.add_gives a b r → r ≡ plus a b };

    ghost minus_is: { (a b r : Self) → Self.sub_gives a b r → r ≡ minus a b };

    ghost negated_is: { (a r : Self) → Self.neg_gives a r → r ≡ negated a };

    ghost plus_encloses: { (a b : Self) (x y : Fraction) → Encloses a x → Encloses b y → Encloses (plus a b) (x ⊕ y) };

    ghost minus_encloses: { (a b : Self) (x y : Fraction) → Encloses a x → Encloses b y → Encloses (minus a b) (x ⊖ y) };

    ghost negated_encloses: { (a : Self) (x : Fraction) → Encloses a x → Encloses (negated a) (opposite x) };

    ghost scaled_encloses: { (a : Self) (f : Self.Factor) (x y : Fraction) → Encloses a x → FactorEncloses f y → Encloses (scaled a f) (x ⊗ y) };

    ghost exactly_encloses: { (u : ℤ) → Encloses (exactly u) (fraction u 1) };

    ghost factor_encloses: { (n : ℤ) (d : ℕ) → 0 < d → FactorEncloses (factor_of n d) (fraction n d) };

    ghost ratio_encloses: { (n : ℤ) (d : ℕ) → 0 < d → Encloses (ratio_of n d) (fraction n d) };

    // a number is enclosed however it is written as a fraction
    ghost same_enclosed: { (a : Self) (x y : Fraction) → Same x y → Encloses a x → Encloses a y };

    ghost same_factor: { (f : Self.Factor) (x y : Fraction) → Same x y → FactorEncloses f x → FactorEncloses f y };
}

impl Enclose for Interval<Micro> {
    type Factor = Interval<Coef>;

    ghost use Rattle.fd_arith.specs.Enclosing.{sum-holds, difference-holds, negation-holds, Holds-same, HoldsCoef-same};
    ghost use Rattle.fd_arith.specs.Products.{product-holds};
    ghost use Rattle.fd_arith.specs.Capping.{outward-holds, point-holds};

    ghost plus = { sum };

    ghost minus = { difference };

    ghost negated = { negation };

    ghost scaled = { product };

    ghost exactly = { λ u. capped u u };

    ghost factor_of = { λ n d. outward (n *ℤ pos (2 ^ 40)) d };

    ghost ratio_of = { outward };

    ghost Encloses = { Holds };

    ghost FactorEncloses = { HoldsCoef };

    fn exact(units: i128) -> Interval<Micro> {
        Interval::point(units)
    }

    fn factor(n: i128, d: i128) -> Interval<Coef> {
        Interval::scaled_quotient(n, d)
    }

    #[inline]
    fn times(self, factor: Interval<Coef>) -> Interval<Micro> {
        self * factor
    }

    fn ratio(n: i128, d: i128) -> Interval<Micro> {
        Interval::quotient(n, d)
    }

    ghost can_plus = { λ a b. tt };

    ghost can_minus = { λ a b. tt };

    ghost can_negate = { λ a. tt };

    ghost plus_is = { λ a b r s. s.ends };

    ghost minus_is = { λ a b r s. s.ends };

    ghost negated_is = { λ a r s. s.ends };

    ghost plus_encloses = { sum-holds };

    ghost minus_encloses = { difference-holds };

    ghost negated_encloses = { negation-holds };

    ghost scaled_encloses = { product-holds };

    ghost exactly_encloses = { point-holds };

    ghost factor_encloses = { λ n d h. outward-holds (n *ℤ pos (2 ^ 40)) d h };

    ghost ratio_encloses = { outward-holds };

    ghost same_enclosed = { Holds-same };

    ghost same_factor = { HoldsCoef-same };
}

impl Enclose for Fix<Micro> {
    type Factor = Fix<Coef>;

    ghost plus = { fix_sum };

    ghost minus = { fix_difference };

    ghost negated = { fix_negation };

    ghost scaled = { fix_product };

    ghost exactly = { within };

    ghost factor_of = { λ n d. nearest (n *ℤ pos (2 ^ 40)) d };

    ghost ratio_of = { nearest };

    ghost Encloses = { λ a x. Unit {0} };

    ghost FactorEncloses = { λ f x. Unit {0} };

    fn exact(units: i128) -> Fix<Micro> {
        Fix::new(units)
    }

    fn factor(n: i128, d: i128) -> Fix<Coef> {
        Fix::scaled_quotient(n, d)
    }

    fn times(self, factor: Fix<Coef>) -> Fix<Micro> {
        self.product(factor)
    }

    fn ratio(n: i128, d: i128) -> Fix<Micro> {
        Fix::quotient(n, d)
    }

    ghost can_plus = { λ a b. tt };

    ghost can_minus = { λ a b. tt };

    ghost can_negate = { λ a. tt };

    ghost plus_is = { λ a b r s. s };

    ghost minus_is = { λ a b r s. s };

    ghost negated_is = { λ a r s. s };

    ghost plus_encloses = { λ a b x y h k. tt };

    ghost minus_encloses = { λ a b x y h k. tt };

    ghost negated_encloses = { λ a x h. tt };

    ghost scaled_encloses = { λ a f x y h k. tt };

    ghost exactly_encloses = { λ u. tt };

    ghost factor_encloses = { λ n d h. tt };

    ghost ratio_encloses = { λ n d h. tt };

    ghost same_enclosed = { λ a x y s h. tt };

    ghost same_factor = { λ f x y s h. tt };
}
