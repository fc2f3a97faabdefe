// The radii of unknowns, from the inverse, the mismatches and the bounds of rows; and the first claimed one that is less.
ghost use Rattle.std.specs.Prelude.{◌≡◌, ℕ, ◌*◌, ◌<◌, ◌≤◌, ◌^◌, nat_abs, nat_lt, false, IfNone, IfOk, IfSome, length};
ghost use Rattle.fd_enclosure.specs.fd_exact.First.{first_place};
ghost use Rattle.fd_enclosure.specs.fd_exact.Greatest.{greatest};
ghost use Rattle.fd_enclosure.specs.fd_exact.Rounding.{ceil_nat};
ghost use Rattle.fd_enclosure.specs.fd_exact.States.{entry, part};
ghost use Rattle.fd_enclosure.specs.fd_exact.Sums.{sum_n};
ghost use Rattle.fd_enclosure.specs.fd_equations.Rounded.{list_of};
ghost use Rattle.fd_enclosure.specs.Bounds.{bound_size, is_below_one as is_below};
ghost use Rattle.fd_enclosure.specs.Sound.{greatest_mismatch, number_at};
ghost use Rattle.fd_enclosure.specs.fd_mat.Rows.{EntriesWithin};
ghost use Rattle.fd_cert.specs.Columns.{AreWeights, HasNumbers, HasWeights, IsRowOfInverse};
ghost use Rattle.fd_cert.specs.Reaches.{AreTight, bound_in, is_unbounded, named_bound, radius_of, reach_in};

use crate::rounding::ceil_over;
use fd_enclosure::Dense;
use std::alloc::{AllocError, Global};

// 2^20 and 2^40, for units of 2^-60 and of 2^-40.
const REACH_UNITS: u128 = 0x10_0000;

const BOUND_UNITS: u128 = 0x100_0000_0000;

// The greatest product of a weight and a reach, and the greatest radius in whole micro-units.
const PRODUCT_LIMIT: u128 = 0x100_0000_0000_0000_0000_0000_0000_0000;

pub const RADIUS_LIMIT: u128 = 0x100_0000_0000;

// The size of an entry of the inverse times a mismatch: one multiplication of 64 bits.
fn share(entry: i64, mismatch: u128) -> u128
    requires entry { nat_abs entry ≤ 2 ^ 56 }
    requires mismatch { mismatch ≤ greatest_mismatch }
    ensures share { result ≡ nat_abs entry * mismatch }
    ensures small { result ≤ 2 ^ 66 }
{
    entry.unsigned_abs() as u128 * (mismatch as u64) as u128
}

// The sum of the sizes of a row of the inverse, each times twice the mismatch.
fn spread(factors: &[i64], mismatch: &[u128]) -> u128
    requires factors { IsRowOfInverse (length mismatch.now) factors.now }
    requires few { length mismatch.now ≤ 2 ^ 11 }
    requires tight { AreTight mismatch.now }
    ensures sum { result ≡ sum_n (λ l. nat_abs (part factors.now l) * (2 * number_at mismatch.now l)) (length mismatch.now) }
    ensures small { result ≤ 2 ^ 78 }
{
    let mut sum = 0;
    for row in 0..mismatch.len() {
        sum += share(factors[row], mismatch[row]);
    }
    2 * sum
}

// How far an unknown may be from the centre by the inverse alone, over its weight, in units of 2^-60.
fn reach(factors: &[i64], mismatch: &[u128], weight: u128) -> u128
    requires factors { IsRowOfInverse (length mismatch.now) factors.now }
    requires few { length mismatch.now ≤ 2 ^ 11 }
    requires tight { AreTight mismatch.now }
    requires least { 10 ^ 6 ≤ weight }
    requires most { weight ≤ 2 ^ 66 }
    ensures reach { result ≡ ceil_nat (sum_n (λ l. nat_abs (part factors.now l) * (2 * number_at mismatch.now l)) (length mismatch.now) * 2 ^ 20) weight }
{
    ceil_over(spread(factors, mismatch) * REACH_UNITS, weight)
}

// The greatest reach of all unknowns.
pub fn greatest_reach(inverse: &Dense, mismatch: &[u128], weights: &[i128]) -> u128
    requires size { length inverse.now ≡ length mismatch.now }
    requires entries { EntriesWithin inverse.now (2 ^ 56) }
    requires few { length mismatch.now ≤ 2 ^ 11 }
    requires tight { AreTight mismatch.now }
    requires weights { AreWeights (length mismatch.now) weights.now }
    ensures { (w e : ℕ → ℕ) → HasWeights (length mismatch.now) weights.now w →
        HasNumbers (length mismatch.now) mismatch.now e →
        result ≡ greatest (reach_in (length mismatch.now) (entry inverse.now) w e) (length mismatch.now) }
{
    let mut greatest = 0;
    for place in 0..inverse.size() {
        let weight = weights[place as usize].unsigned_abs();
        greatest = greatest.max(reach(inverse.row(place), mismatch, weight));
    }
    greatest
}

// The bound of a row as a refusal names it.
pub fn named(weight: u128, reach: u128, bound: Option<i128>) -> Option<i128>
    ensures { result ≡ named_bound weight reach bound }
{
    match weight.checked_mul(reach) {
        Some(product) if product <= PRODUCT_LIMIT => bound,
        _ => None,
    }
}

// Whether a bound is below one.
fn is_below_one(bound: Option<i128>) -> bool
    ensures { result ≡ is_below bound }
{
    match bound {
        Some(bound) => bound < BOUND_UNITS as i128,
        None => false,
    }
}

// The first row whose bound reaches one, if there is one.
pub fn first_unbounded(bounds: &[Option<i128>], reach: u128, weights: &[i128]) -> Option<u32>
    requires few { length bounds.now ≤ 2 ^ 11 }
    requires weights { AreWeights (length bounds.now) weights.now }
    ensures first { result ≡ first_place (is_unbounded weights.now reach bounds.now) (length bounds.now) }
    ensures inside { IfSome result (λ i. i < length bounds.now) }
    ensures below { IfNone result ((i : ℕ) → i < length bounds.now → is_unbounded weights.now reach bounds.now i ≡ false) }
{
    for place in 0..bounds.len() {
        let weight = weights[place].unsigned_abs();
        if !is_below_one(named(weight, reach, bounds[place])) {
            return Some(place as u32);
        }
    }
    None
}

// The size of a bound; one that is none reaches one.
fn size(bound: Option<i128>) -> u128
    ensures { result ≡ bound_size bound }
{
    match bound {
        Some(bound) => bound.unsigned_abs(),
        None => BOUND_UNITS,
    }
}

// The greatest size of all bounds.
pub fn greatest_bound(bounds: &[Option<i128>]) -> u128
    ensures { result ≡ greatest (λ i. bound_size (bound_in bounds.now i)) (length bounds.now) }
{
    let mut greatest = 0;
    for place in 0..bounds.len() {
        greatest = greatest.max(size(bounds[place]));
    }
    greatest
}

// The radius of each unknown, in whole micro-units.
pub fn radii(
    alloc: Global,
    weights: &[i128],
    reach: u128,
    bound: u128,
) -> Result<Vec<u128>, AllocError>
    requires weights { AreWeights (length weights.now) weights.now }
    requires bound { bound < 2 ^ 40 }
    requires products { (i : ℕ) → i < length weights.now → nat_abs (part weights.now i) * reach ≤ 2 ^ 120 }
    ensures { IfOk result (λ radii. radii.items ≡ list_of (length weights.now) (λ i. radius_of (nat_abs (part weights.now i)) reach bound)) }
{
    let mut radii = Vec::with_capacity(alloc, weights.len())?;
    for weight in weights {
        let product = weight.unsigned_abs() * reach;
        radii.push(ceil_over(product, REACH_UNITS * (BOUND_UNITS - bound)))?;
    }
    Ok(radii)
}

// The first unknown whose radius is too wide, if there is one.
pub fn first_wide(radii: &[u128]) -> Option<u32>
    requires { length radii.now ≤ 2 ^ 11 }
    ensures first { result ≡ first_place (λ i. nat_lt (2 ^ 40) (number_at radii.now i)) (length radii.now) }
    ensures inside { IfSome result (λ i. i < length radii.now) }
{
    for place in 0..radii.len() {
        if radii[place] > RADIUS_LIMIT {
            return Some(place as u32);
        }
    }
    None
}

// The first unknown whose claimed radius is below the least that holds, if there is one.
pub fn first_narrow(least: &[u128], claimed: &[u128]) -> Option<u32>
    requires few { length least.now ≤ 2 ^ 11 }
    requires long { length claimed.now ≡ length least.now }
    ensures { result ≡ first_place (λ i. nat_lt (number_at claimed.now i) (number_at least.now i)) (length least.now) }
{
    for place in 0..least.len() {
        if claimed[place] < least[place] {
            return Some(place as u32);
        }
    }
    None
}
