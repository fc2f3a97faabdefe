// Quotients of whole numbers, as they are and in units of 2^-40.
ghost use Rattle.std.specs.Prelude.{◌≡◌, ℕ, ℤ, pos, ◌+◌, ◌*◌, ◌<◌, ◌^◌, ◌*ℤ◌, ◌≤ℤ◌, ◌<ℤ◌, Option, Some, None};
ghost use Rattle.std.specs.Int.RustNames.{unsigned_abs};
ghost use Rattle.fd_exact.specs.Rounding.{floor_div, ceil_div, near_div, signed};
ghost use Rattle.fd_arith.specs.Limits.{IsRoot, IsUnits, bounded};
ghost use Rattle.fd_arith.specs.Interval.{IsBounds, outward};
ghost use Rattle.fd_arith.specs.Fix.{nearest};

use crate::division::{Division, near, outward, rounded_near, rounded_up, scaled, whole};

// 2^100
const MOST: i128 = 0x10_0000_0000_0000_0000_0000_0000;

/// n 2^40 / d rounded down; None exactly where it passes 2^100 in size.
pub fn floor_at(n: i128, d: i128) -> Option<i128>
    requires positive { pos 0 <ℤ d }
    requires most { d ≤ℤ pos (10 ^ 32) }
    ensures { result ≡ bounded (floor_div (n *ℤ pos (2 ^ 40)) (unsigned_abs d)) }
{
    let Some(division) = scaled(n.unsigned_abs(), d.unsigned_abs()) else {
        return None;
    };
    within(floor_of(&division, n < 0))
}

/// n 2^40 / d rounded up; None exactly where it passes 2^100 in size.
pub fn ceil_at(n: i128, d: i128) -> Option<i128>
    requires positive { pos 0 <ℤ d }
    requires most { d ≤ℤ pos (10 ^ 32) }
    ensures { result ≡ bounded (ceil_div (n *ℤ pos (2 ^ 40)) (unsigned_abs d)) }
{
    let Some(division) = scaled(n.unsigned_abs(), d.unsigned_abs()) else {
        return None;
    };
    within(ceil_of(&division, n < 0))
}

// A quotient with a sign, rounded down.
fn floor_of(division: &Division, negative: bool) -> i128
    requires { division.now.quotient < 2 ^ 126 + 2 ^ 40 }
    ensures { (d : ℕ) → division.now.rest < d →
        result ≡ floor_div (signed negative (division.now.quotient * d + division.now.rest)) d }
{
    if negative {
        -(rounded_up(division) as i128)
    } else {
        division.quotient as i128
    }
}

// A quotient with a sign, rounded up.
fn ceil_of(division: &Division, negative: bool) -> i128
    requires { division.now.quotient < 2 ^ 126 + 2 ^ 40 }
    ensures { (d : ℕ) → division.now.rest < d →
        result ≡ ceil_div (signed negative (division.now.quotient * d + division.now.rest)) d }
{
    if negative {
        -(division.quotient as i128)
    } else {
        rounded_up(division) as i128
    }
}

// z, unless it passes 2^100 in size.
fn within(z: i128) -> Option<i128>
    ensures { result ≡ bounded z }
{
    if -MOST <= z && z <= MOST {
        Some(z)
    } else {
        None
    }
}

/// n 2^40 / d, rounded outward, or none past the limit.
pub fn outward_scaled(n: i128, d: i128) -> Option<(i128, i128)>
    requires positive { pos 0 <ℤ d }
    requires most { d ≤ℤ pos (10 ^ 32) }
    ensures ends { result ≡ outward (n *ℤ pos (2 ^ 40)) (unsigned_abs d) }
    ensures valid { IsBounds result }
{
    let Some(division) = scaled(n.unsigned_abs(), d.unsigned_abs()) else {
        return None;
    };
    outward(division, n < 0)
}

/// n / d, rounded outward, or none past the limit.
pub fn outward_whole(n: i128, d: i128) -> Option<(i128, i128)>
    requires { pos 0 <ℤ d }
    ensures ends { result ≡ outward n (unsigned_abs d) }
    ensures valid { IsBounds result }
{
    outward(whole(n.unsigned_abs(), d.unsigned_abs()), n < 0)
}

/// n 2^40 / d to the nearest, a tie away from zero; None exactly where it passes 2^100 in size.
pub fn near_at(n: i128, d: i128) -> Option<i128>
    requires positive { pos 0 <ℤ d }
    requires most { d ≤ℤ pos (10 ^ 32) }
    ensures { result ≡ bounded (near_div (n *ℤ pos (2 ^ 40)) (unsigned_abs d)) }
{
    let Some(division) = scaled(n.unsigned_abs(), d.unsigned_abs()) else {
        return None;
    };
    within(near_of(&division, d.unsigned_abs(), n < 0))
}

// A quotient with a sign, to the nearest.
fn near_of(division: &Division, d: u128, negative: bool) -> i128
    requires room { division.now.quotient < 2 ^ 126 + 2 ^ 40 }
    requires rest { division.now.rest < d }
    ensures { result ≡ near_div (signed negative (division.now.quotient * d + division.now.rest)) d }
{
    let size = rounded_near(division, d) as i128;
    if negative { -size } else { size }
}

/// n 2^40 / d to the nearest, or none past the limit.
pub fn near_scaled(n: i128, d: i128) -> Option<i128>
    requires positive { pos 0 <ℤ d }
    requires most { d ≤ℤ pos (10 ^ 32) }
    ensures units { result ≡ nearest (n *ℤ pos (2 ^ 40)) (unsigned_abs d) }
    ensures valid { IsUnits result }
{
    let Some(division) = scaled(n.unsigned_abs(), d.unsigned_abs()) else {
        return None;
    };
    near(&division, d.unsigned_abs(), n < 0)
}

/// n / d to the nearest, or none past the limit.
pub fn near_whole(n: i128, d: i128) -> Option<i128>
    requires { pos 0 <ℤ d }
    ensures units { result ≡ nearest n (unsigned_abs d) }
    ensures valid { IsUnits result }
{
    near(
        &whole(n.unsigned_abs(), d.unsigned_abs()),
        d.unsigned_abs(),
        n < 0,
    )
}

/// The square root of n, rounded down.
pub fn isqrt(n: u128) -> u128
    ensures { IsRoot n result }
{
    n.isqrt()
}
