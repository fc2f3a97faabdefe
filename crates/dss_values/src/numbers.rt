// Values that are numbers, in whole 10^-9.
ghost use Rattle.std.specs.Prelude.{◌≡◌, ◌<◌, ◌≤◌, ◌≤ℤ◌, ◌*◌, pos, neg_ℤ, IfOk, IsTrue, unsigned_abs, int_div};
ghost use Rattle.dss_model.specs.Answers.{Gives};
ghost use Rattle.dss_model.specs.Ranges.{ones};
ghost use Rattle.dss_values.specs.Bare.{IsReadWhereBare};
ghost use Rattle.dss_values.specs.Forms.{number_in, is_within, within, number_between, has_power_factor, power_factor_in, is_whole, whole, whole_in, count_of, whole_between, one_of, whole_among, supported_among, nearest_count, half, tap_of, tap_in, milliseconds_in, ratio_in, has_angle, angle_in, phase_in};

use dss_model::{ModelError, ModelFault, ONE, Pair, near_quotient, number, postfix};
use std::alloc::Global;

fn ones_of(count: u32) -> i128
    ensures { result ≡ ones count }
{
    i128::from(count) * ONE
}

/// The number of a pair: a word spells it, and a group holds a postfix expression.
#[tactic(auto, unfolding(crate::specs::Forms::number_in))]
pub fn number_value(alloc: Global, pair: &Pair) -> Result<i128, ModelError>
    ensures value { Gives (λ n. n) result (number_in pair.now) }
    ensures bare { IsReadWhereBare pair.now result }
{
    if pair.grouped {
        Ok(postfix(alloc, pair.value.as_str())?)
    } else {
        Ok(number(pair.value.as_str())?)
    }
}

/// Whether a number is from `low` to `high`.
pub fn is_in_range(number: i128, low: i128, high: i128) -> bool
    ensures value { result ≡ is_within low high number }
    ensures low { IsTrue result → low ≤ℤ number }
    ensures high { IsTrue result → number ≤ℤ high }
{
    low <= number && number <= high
}

fn in_range(number: i128, low: i128, high: i128) -> Result<i128, ModelFault>
    ensures value { result ≡ within low high number }
    ensures within { IfOk result (λ n. (low ≤ℤ n) × (n ≤ℤ high)) }
{
    if is_in_range(number, low, high) {
        Ok(number)
    } else {
        Err(ModelFault::OutOfRange)
    }
}

/// A number from `low` to `high`.
#[tactic(auto, unfolding(crate::specs::Forms::number_between))]
pub fn number_within(alloc: Global, pair: &Pair, low: i128, high: i128) -> Result<i128, ModelError>
    ensures value { Gives (λ n. n) result (number_between low high pair.now) }
    ensures within { IfOk result (λ n. (low ≤ℤ n) × (n ≤ℤ high)) }
    ensures bare { IsReadWhereBare pair.now result }
{
    let number = number_value(alloc, pair)?;
    Ok(in_range(number, low, high)?)
}

fn is_power_factor(number: i128) -> bool
    ensures { result ≡ has_power_factor number }
{
    is_in_range(number, 10_000_000, ONE) || is_in_range(number, -ONE, -10_000_000)
}

/// A power factor: a number from 0.01 to 1 in size, with either sign.
#[tactic(auto, unfolding(crate::specs::Forms::power_factor_in))]
pub fn power_factor(alloc: Global, pair: &Pair) -> Result<i128, ModelError>
    ensures value { Gives (λ n. n) result (power_factor_in pair.now) }
    ensures bare { IsReadWhereBare pair.now result }
{
    let number = number_value(alloc, pair)?;
    if is_power_factor(number) {
        Ok(number)
    } else {
        Err(ModelError::Fault(ModelFault::OutOfRange))
    }
}

/// Whether a number has no fraction.
pub fn has_no_fraction(number: i128) -> bool
    ensures { result ≡ is_whole number }
{
    number.unsigned_abs() % 1_000_000_000 == 0
}

fn whole_number(number: i128) -> Result<i128, ModelFault>
    ensures { result ≡ whole number }
{
    if has_no_fraction(number) {
        Ok(number)
    } else {
        Err(ModelFault::BadValue)
    }
}

#[tactic(auto, unfolding(crate::specs::Forms::whole_in))]
fn whole_value(alloc: Global, pair: &Pair) -> Result<i128, ModelError>
    ensures value { Gives (λ n. n) result (whole_in pair.now) }
    ensures bare { IsReadWhereBare pair.now result }
{
    let number = number_value(alloc, pair)?;
    Ok(whole_number(number)?)
}

// How many ones there are in a number.
fn count(number: i128) -> u32
    requires low { pos 0 ≤ℤ number }
    requires high { number ≤ℤ pos (4_294_967_295 * 1_000_000_000) }
    ensures { result ≡ count_of number }
{
    (number.unsigned_abs() / 1_000_000_000) as u32
}

/// A whole number from `low` to `high`.
#[tactic(auto, unfolding(crate::specs::Forms::whole_between))]
pub fn whole_within(alloc: Global, pair: &Pair, low: u32, high: u32) -> Result<u32, ModelError>
    ensures value { Gives (λ n. n) result (whole_between low high pair.now) }
    ensures bare { IsReadWhereBare pair.now result }
{
    let number = whole_value(alloc, pair)?;
    let number = in_range(number, ones_of(low), ones_of(high))?;
    Ok(count(number))
}

fn find_one(values: &[u32], number: i128) -> Option<u32>
    ensures { result ≡ one_of values.now number }
{
    values
        .iter()
        .copied()
        .find(|value| ones_of(*value) == number)
}

/// A whole number that is one of `values`; any other is out of range.
#[tactic(auto, unfolding(crate::specs::Forms::whole_among))]
pub fn whole_of(alloc: Global, pair: &Pair, values: &[u32]) -> Result<u32, ModelError>
    ensures value { Gives (λ n. n) result (whole_among values.now pair.now) }
    ensures bare { IsReadWhereBare pair.now result }
{
    let number = whole_value(alloc, pair)?;
    Ok(find_one(values, number).ok_or(ModelFault::OutOfRange)?)
}

/// A number that is one of `values`; any other is unsupported.
#[tactic(auto, unfolding(crate::specs::Forms::supported_among))]
pub fn supported_of(alloc: Global, pair: &Pair, values: &[u32]) -> Result<u32, ModelError>
    ensures value { Gives (λ n. n) result (supported_among values.now pair.now) }
    ensures bare { IsReadWhereBare pair.now result }
{
    let number = number_value(alloc, pair)?;
    Ok(find_one(values, number).ok_or(ModelFault::Unsupported)?)
}

// The number of units nearest to a number that isn't negative and at most 10^15.
fn nearest_count(number: i128, unit: u32) -> u64
    requires low { pos 0 ≤ℤ number }
    requires high { number ≤ℤ pos 1_000_000_000_000_000 }
    requires unit { 1 < unit }
    ensures value { result ≡ nearest_count unit number }
    ensures small { result ≤ 1_000_000_000_000_000 }
{
    near_quotient(number, u128::from(unit)).unsigned_abs() as u64
}

/// Half of a number, to the nearest unit.
pub fn half_of(number: i128) -> i128
    requires low { pos 0 ≤ℤ number }
    requires high { number ≤ℤ pos 1_000_000_000_000_000 }
    ensures { result ≡ half number }
{
    i128::from(nearest_count(number, 2))
}

/// The tap, in whole 10^-5, of a number from 0.5 to 2.
pub fn tap_of_number(number: i128) -> u32
    requires low { pos 0 ≤ℤ number }
    requires high { number ≤ℤ pos 2_000_000_000 }
    ensures { result ≡ tap_of number }
{
    nearest_count(number, 10_000) as u32
}

/// A tap from 0.5 to 2, in whole 10^-5.
#[tactic(auto, unfolding(crate::specs::Forms::tap_in))]
pub fn tap(alloc: Global, pair: &Pair) -> Result<u32, ModelError>
    ensures value { Gives (λ n. n) result (tap_in pair.now) }
    ensures bare { IsReadWhereBare pair.now result }
{
    let number = number_within(alloc, pair, 500_000_000, 2 * ONE)?;
    Ok(tap_of_number(number))
}

/// A time from 0 to 10^6 seconds, in whole milliseconds.
#[tactic(auto, unfolding(crate::specs::Forms::milliseconds_in))]
pub fn milliseconds(alloc: Global, pair: &Pair) -> Result<u32, ModelError>
    ensures value { Gives (λ n. n) result (milliseconds_in pair.now) }
    ensures bare { IsReadWhereBare pair.now result }
{
    let number = number_within(alloc, pair, 0, 1_000_000 * ONE)?;
    Ok(nearest_count(number, 1_000_000) as u32)
}

/// A ratio from 0 to 100, a multiple of 10^-4.
#[tactic(auto, unfolding(crate::specs::Forms::ratio_in))]
pub fn ratio(alloc: Global, pair: &Pair) -> Result<i128, ModelError>
    ensures value { Gives (λ n. n) result (ratio_in pair.now) }
    ensures bare { IsReadWhereBare pair.now result }
{
    let number = number_within(alloc, pair, 0, 100 * ONE)?;
    Ok(i128::from(nearest_count(number, 100_000)) * 100_000)
}

// An angle in degrees.
fn is_angle(number: i128) -> bool
    ensures value { result ≡ has_angle number }
    ensures low { IsTrue result → neg_ℤ (pos 360_000_000_000) ≤ℤ number }
    ensures high { IsTrue result → number ≤ℤ pos 360_000_000_000 }
{
    let size = number.unsigned_abs();
    size % 30_000_000_000 == 0 && size <= 360_000_000_000
}

// A number of ones, with its sign.
fn signed_count(number: i128) -> i32
    requires low { neg_ℤ (pos 1_000_000_000_000_000_000) ≤ℤ number }
    requires high { number ≤ℤ pos 1_000_000_000_000_000_000 }
    ensures { result ≡ int_div number (pos 1_000_000_000) }
{
    (number / ONE) as i32
}

/// An angle in degrees, a multiple of 30 from -360 to 360; any other is unsupported.
#[tactic(auto, unfolding(crate::specs::Forms::angle_in))]
pub fn angle(alloc: Global, pair: &Pair) -> Result<i32, ModelError>
    ensures value { Gives (λ n. n) result (angle_in pair.now) }
    ensures bare { IsReadWhereBare pair.now result }
{
    let number = number_value(alloc, pair)?;
    if is_angle(number) {
        Ok(signed_count(number))
    } else {
        Err(ModelError::Fault(ModelFault::Unsupported))
    }
}

/// The number of a phase, which may be any whole number.
#[tactic(auto, unfolding(crate::specs::Forms::phase_in))]
pub fn phase(alloc: Global, pair: &Pair) -> Result<i32, ModelError>
    ensures value { Gives (λ n. n) result (phase_in pair.now) }
    ensures bare { IsReadWhereBare pair.now result }
{
    let number = whole_value(alloc, pair)?;
    let number = in_range(number, -ONE * ONE, ONE * ONE)?;
    Ok(signed_count(number))
}
