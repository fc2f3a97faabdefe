// Quotients of naturals, whose dividends may pass 128 bits, and their rounding with a sign.
ghost use Rattle.std.specs.Prelude.{◌≡◌, ℕ, ℤ, ◌+◌, ◌*◌, ◌<◌, ◌≤◌, ◌^◌, ◌*ℤ◌, IfSome, IfNone, Option, Some, None};
ghost use Rattle.std.specs.Int.RustNames.{unsigned_abs};
ghost use Rattle.fd_exact.specs.Rounding.{signed};
ghost use Rattle.fd_arith.specs.Interval.{IsBounds, outward};
ghost use Rattle.fd_arith.specs.Limits.{IsUnits};
ghost use Rattle.fd_arith.specs.Fix.{nearest};

use crate::limit::LIMIT;

/// A quotient rounded toward zero, and what is left of the dividend.
#[derive(Clone, Copy)]
pub struct Division {
    pub quotient: u128,
    pub rest: u128,
}

/// n / d.
#[inline]
pub fn whole(n: u128, d: u128) -> Division
    requires { 0 < d }
    ensures exact { result.quotient * d + result.rest ≡ n }
    ensures rest { result.rest < d }
    ensures small { result.quotient ≤ n }
{
    Division {
        quotient: n / d,
        rest: n % d,
    }
}

/// n 2^40 / d in two steps of 20 bits: the rest is below d, so its multiple by 2^20 fits 128 bits since d is at most
/// 10^32. None where the quotient is 2^126 or more.
pub fn scaled(n: u128, d: u128) -> Option<Division>
    requires positive { 0 < d }
    requires most { d ≤ 10 ^ 32 }
    ensures exact { IfSome result (λ r. r.quotient * d + r.rest ≡ n * 2 ^ 40) }
    ensures rest { IfSome result (λ r. r.rest < d) }
    ensures small { IfSome result (λ r. r.quotient < 2 ^ 126 + 2 ^ 40) }
    ensures large { IfNone result (2 ^ 126 * d ≤ n * 2 ^ 40) }
{
    let whole = n / d;
    if whole >= 0x40_0000_0000_0000_0000_0000 {
        return None;
    }
    let first = (n % d) * 0x10_0000;
    let second = (first % d) * 0x10_0000;
    let quotient = (whole * 0x10_0000 + first / d) * 0x10_0000 + second / d;
    Some(Division {
        quotient,
        rest: second % d,
    })
}

/// a b / 2^40. None where the product is 2^167 or more.
pub fn over_coef(a: u128, b: u128) -> Option<Division>
    ensures exact { IfSome result (λ r. r.quotient * 2 ^ 40 + r.rest ≡ a * b) }
    ensures rest { IfSome result (λ r. r.rest < 2 ^ 40) }
    ensures small { IfSome result (λ r. r.quotient < 2 ^ 127) }
    ensures large { IfNone result (2 ^ 167 ≤ a * b) }
{
    let (low, high) = a.carrying_mul(b, 0);
    if high >= 0x80_0000_0000 {
        return None;
    }
    Some(Division {
        quotient: high * 0x100_0000_0000_0000_0000_0000 + low / 0x100_0000_0000,
        rest: low % 0x100_0000_0000,
    })
}

/// Whether a product is at most 0, by the signs of its factors.
#[inline]
pub fn differ_in_sign(x: i128, y: i128) -> bool
    ensures { (x *ℤ y) ≡ signed result (unsigned_abs x * unsigned_abs y) }
{
    if x < 0 { 0 <= y } else { y < 0 }
}

/// The quotient rounded up.
#[inline]
pub fn rounded_up(division: &Division) -> u128
    requires { division.now.quotient ≤ 2 ^ 127 }
    ensures exact { division.now.rest ≡ 0 → result ≡ division.now.quotient }
    ensures more { 0 < division.now.rest → result ≡ division.now.quotient + 1 }
    ensures least { division.now.quotient ≤ result }
    ensures small { result ≤ division.now.quotient + 1 }
{
    if division.rest == 0 {
        division.quotient
    } else {
        division.quotient + 1
    }
}

/// The quotient by d rounded to the nearest, a half up.
#[inline]
pub fn rounded_near(division: &Division, d: u128) -> u128
    requires room { division.now.quotient ≤ 2 ^ 127 }
    requires rest { division.now.rest < d }
    ensures down { 2 * division.now.rest < d → result ≡ division.now.quotient }
    ensures up { d ≤ 2 * division.now.rest → result ≡ division.now.quotient + 1 }
    ensures least { division.now.quotient ≤ result }
    ensures small { result ≤ division.now.quotient + 1 }
{
    if division.rest < d - division.rest {
        division.quotient
    } else {
        division.quotient + 1
    }
}

/// The two ends of a quotient with a sign, rounded outward, or none past the limit.
pub fn outward(division: Division, negative: bool) -> Option<(i128, i128)>
    requires { division.quotient ≤ 2 ^ 127 }
    ensures ends { (d : ℕ) → division.rest < d →
        result ≡ outward (signed negative (division.quotient * d + division.rest)) d }
    ensures valid { IsBounds result }
{
    let down = division.quotient;
    let up = rounded_up(&division);
    if up > LIMIT as u128 {
        return None;
    }
    let (down, up) = (down as i128, up as i128);
    if negative {
        Some((-up, -down))
    } else {
        Some((down, up))
    }
}

fn with_sign(size: u128, negative: bool) -> i128
    requires { size ≤ 2 ^ 120 }
    ensures { result ≡ signed negative size }
{
    if negative {
        -(size as i128)
    } else {
        size as i128
    }
}

/// A quotient with a sign to the nearest, or none past the limit.
pub fn near(division: &Division, d: u128, negative: bool) -> Option<i128>
    requires room { division.now.quotient ≤ 2 ^ 127 }
    requires rest { division.now.rest < d }
    ensures units { result ≡ nearest (signed negative (division.now.quotient * d + division.now.rest)) d }
    ensures valid { IsUnits result }
{
    let size = rounded_near(division, d);
    if size > LIMIT as u128 {
        return None;
    }
    Some(with_sign(size, negative))
}
