// Complex numbers by the operators of one arithmetic.
ghost use Rattle.std.specs.Prelude.{◌≡◌};
ghost use Rattle.fd_exact.specs.Fractions.{Fraction, ◌⊕◌, ◌⊖◌, ◌⊗◌};

use crate::Enclose;
use std::ops::{Add, Neg, Sub};

/// A complex number with its real and its imaginary part in one arithmetic.
#[derive(Clone, Copy, PartialEq, Debug)]
pub struct Cx<T> {
    pub re: T,
    pub im: T,
}

impl<T: Enclose> Add for Cx<T> {
    type Output = Cx<T>;

    ghost add_gives = { λ a b r. r ≡ record { re = T.plus a.re b.re; im = T.plus a.im b.im } };

    #[inline]
    fn add(self, other: Cx<T>) -> Cx<T> {
        Cx {
            re: self.re + other.re,
            im: self.im + other.im,
        }
    }
}

impl<T: Enclose> Sub for Cx<T> {
    type Output = Cx<T>;

    ghost sub_gives = { λ a b r. r ≡ record { re = T.minus a.re b.re; im = T.minus a.im b.im } };

    #[inline]
    fn sub(self, other: Cx<T>) -> Cx<T> {
        Cx {
            re: self.re - other.re,
            im: self.im - other.im,
        }
    }
}

impl<T: Enclose> Neg for Cx<T> {
    type Output = Cx<T>;

    ghost neg_gives = { λ a r. r ≡ record { re = T.negated a.re; im = T.negated a.im } };

    #[inline]
    fn neg(self) -> Cx<T> {
        Cx {
            re: -self.re,
            im: -self.im,
        }
    }
}

impl<T: Enclose> Cx<T> {
    /// The product with the complex coefficient re + j im, by the operators of `T`; each part encloses the exact one.
    #[inline]
    pub fn times(self, re: T::Factor, im: T::Factor) -> Cx<T>
        ensures real { result.re ≡ T.minus (T.scaled self.re re) (T.scaled self.im im) }
        ensures imaginary { result.im ≡ T.plus (T.scaled self.re im) (T.scaled self.im re) }
        ensures encloses_real { (x y a b : Fraction) → T.Encloses self.re x → T.Encloses self.im y →
            T.FactorEncloses re a → T.FactorEncloses im b → T.Encloses result.re ((x ⊗ a) ⊖ (y ⊗ b)) }
        ensures encloses_imaginary { (x y a b : Fraction) → T.Encloses self.re x → T.Encloses self.im y →
            T.FactorEncloses re a → T.FactorEncloses im b → T.Encloses result.im ((x ⊗ b) ⊕ (y ⊗ a)) }
    {
        Cx {
            re: self.re.times(re) - self.im.times(im),
            im: self.re.times(im) + self.im.times(re),
        }
    }
}
