// The range of contributions.
ghost use Rattle.std.specs.Prelude.{◌≡◌, ◌*ℤ◌, nat_abs, ℤ, pos, ◌<ℤ◌, ◌≤ℤ◌, ◌^◌, All, IsTrue, IfSome, IfNone, ◌↔◌};
ghost use Rattle.fd_system.specs.Contributions.{IsWithin, IsDivided, AreSmall};
ghost use Rattle.fd_arith.specs.fd_exact.Rounding.{near_div};

use fd_arith::{Term, near_at};

/// Whether a contribution, nearest to a whole number of 2^-40, is at most 2^54 in size.
pub fn is_within(term: &Term) -> bool
    requires { IsDivided term.now }
    ensures { IsTrue result ↔ IsWithin term.now }
{
    match near_units(term.num, term.den) {
        Some(units) => is_small(units),
        None => false,
    }
}

/// Whether each of the contributions is within the range.
pub fn all_within(terms: &[Term]) -> bool
    requires { All IsDivided terms.now }
    ensures { IsTrue result ↔ All IsWithin terms.now }
{
    terms.iter().all(|term| is_within(term))
}

// 2^54
const MOST: u128 = 18_014_398_509_481_984;

/// Whether a number of units of 2^-40 is at most 2^54 in size.
pub fn is_small(units: i128) -> bool
    ensures { IsTrue result ↔ AreSmall units }
{
    units.unsigned_abs() <= MOST
}

// num / den in units of 2^-40, where it is not far too large
fn near_units(num: i128, den: i128) -> Option<i128>
    requires positive { pos 0 <ℤ den }
    requires most { den ≤ℤ pos (10 ^ 32) }
    ensures some { IfSome result (λ u. u ≡ near_div (num *ℤ pos (2 ^ 40)) (nat_abs den)) }
    ensures none { IfNone result (¬ AreSmall (near_div (num *ℤ pos (2 ^ 40)) (nat_abs den))) }
{
    near_at(num, den)
}
