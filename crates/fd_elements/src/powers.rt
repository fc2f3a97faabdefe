// The powers of loads.
ghost use Rattle.std.specs.Prelude.{◌≡◌, ◌+◌, ◌-◌, ◌*◌, ◌/◌, ◌<◌, ◌≤◌, ◌^◌, [], ◌∷◌, pos, ◌*ℤ◌, nat_abs};
ghost use Rattle.dss_model.specs.Ranges.{ones, IsBetween, IsOneOf, IsPower, IsPowerFactor};
ghost use Rattle.dss_model.specs.InRange.{LoadInRange};
ghost use Rattle.fd_elements.specs.Powers.{ArePowers, IsByPowerFactor, IsLoadPower, IsReactive, phase_power};

use dss_model::{Load, ReactiveRule, isqrt, near_quotient};

/// The power of one phase of a load, in whole thousandths of a volt-ampere.
#[derive(Clone, Copy, PartialEq, Eq, Debug)]
pub struct LoadPower {
    pub p: i128,
    pub q: i128,
}

// 1, in 10^-18
const ONE: u128 = 1_000_000_000_000_000_000;

/// The power of one phase of a load at a point of its shape, in 10^-9, which is 10^9 for a load without a shape. P is its part of kw
/// times the point, to the nearest 10^-3 VA, and Q its part of kvar likewise; by the power factor, Q is P root(1 - pf^2) / pf
/// in size, rounded down, and negative where just one of P and pf is. Takes no memory.
pub fn load_power(load: &Load, point: i128) -> LoadPower
    requires load { LoadInRange load.now }
    requires point { IsBetween (pos 0) (ones 1000) point }
    ensures power { IsLoadPower load.now point result }
    ensures within { ArePowers result }
{
    let p = part(load.kw, point, load.phases);
    LoadPower {
        p,
        q: reactive(load, point, p),
    }
}

// One phase's part of a power of all phases, at a point of the shape.
fn part(total: i128, point: i128, phases: u32) -> i128
    requires total { IsPower total }
    requires point { IsBetween (pos 0) (ones 1000) point }
    requires phases { IsOneOf (1 ∷ 3 ∷ []) phases }
    ensures value { result ≡ phase_power total point phases }
    ensures most { nat_abs result ≤ 3 * 10 ^ 14 }
{
    near_quotient(at_point(total, point), 1_000_000_000_000 * phases as u128)
}

// A power at a point of the shape, in 10^-18.
fn at_point(total: i128, point: i128) -> i128
    requires total { IsPower total }
    requires point { IsBetween (pos 0) (ones 1000) point }
    ensures value { result ≡ total *ℤ point }
    ensures most { nat_abs result ≤ 3 * 10 ^ 14 * 10 ^ 12 }
{
    total * point
}

fn reactive(load: &Load, point: i128, p: i128) -> i128
    requires load { LoadInRange load.now }
    requires point { IsBetween (pos 0) (ones 1000) point }
    requires p { nat_abs p ≤ 3 * 10 ^ 14 }
    ensures value { IsReactive load.now.reactive load.now point p result }
    ensures most { nat_abs result ≤ 3 * 10 ^ 16 }
{
    match load.reactive {
        ReactiveRule::PowerFactor => by_power_factor(p, load.pf),
        ReactiveRule::Kvar => part(load.kvar.unwrap_or(0), point, load.phases),
    }
}

// Q by P and the power factor.
fn by_power_factor(p: i128, pf: i128) -> i128
    requires p { nat_abs p ≤ 3 * 10 ^ 14 }
    requires pf { IsPowerFactor pf }
    ensures value { IsByPowerFactor p pf result }
    ensures most { nat_abs result ≤ 3 * 10 ^ 16 }
{
    let size = reactive_size(p.unsigned_abs(), pf.unsigned_abs()) as i128;
    if (p < 0) == (pf < 0) { size } else { -size }
}

// The root of p^2 (1 - pf^2) / pf^2, rounded down.
fn reactive_size(p: u128, pf: u128) -> u128
    requires p { p ≤ 3 * 10 ^ 14 }
    requires pf_least { 10 ^ 7 ≤ pf }
    requires pf_most { pf ≤ 10 ^ 9 }
    ensures least { result * result * (pf * pf) ≤ p * p * (10 ^ 18 - pf * pf) }
    ensures more { p * p * (10 ^ 18 - pf * pf) < (result + 1) * (result + 1) * (pf * pf) }
    ensures most { result ≤ 3 * 10 ^ 16 }
{
    isqrt(scaled(p * p, ONE - pf * pf, pf * pf))
}

// n times the factor over the divisor, rounded down. The product may pass 128 bits, so the quotient of n and its rest are taken apart.
fn scaled(n: u128, factor: u128, divisor: u128) -> u128
    requires positive { 10 ^ 14 ≤ divisor }
    requires divisor_most { divisor ≤ 10 ^ 18 }
    requires factor { factor ≤ 10 ^ 18 }
    requires n { n ≤ 9 * 10 ^ 28 }
    ensures { result ≡ n * factor / divisor }
{
    n / divisor * factor + n % divisor * factor / divisor
}
