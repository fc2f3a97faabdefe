// Numbers up to 2^70 in two parts, so that their products with the entries of a row of the inverse add up without tests.
ghost use Rattle.std.specs.Prelude.{◌≡◌, ◌<◌, ◌≤◌, ◌/◌, ◌%◌, ◌^◌, nat_abs, IfOk, IfSome, OnOk, length};
ghost use Rattle.fd_enclosure.specs.fd_exact.States.{part};
ghost use Rattle.fd_cert.specs.Columns.{IsRowOfInverse};
ghost use Rattle.fd_cert.specs.Parts.{AreHigh, AreParts, high_sum, with_high};

use crate::totals::plus_short;
use std::alloc::{AllocError, Global};

// 2^60, and how often a number may have it, 2^10 times.
const UNIT: u128 = 0x1000_0000_0000_0000;

const MOST: u128 = 0x400;

/// A place at which a number has 2^60, and how often.
#[derive(Clone, Copy, Drop)]
pub struct High {
    place: usize,
    times: u64,
}

/// Numbers in two parts: what is left of each below 2^60, and how often it has 2^60, where it does.
#[derive(Drop)]
pub struct Parted {
    pub lows: Vec<u64>,
    pub highs: Vec<High>,
}

// How often a number has 2^60, if that is at most 2^10 times.
fn times_of(number: u128) -> Option<u64>
    ensures value { IfSome result (λ t. t ≡ number / 2 ^ 60) }
    ensures small { IfSome result (λ t. t ≤ 2 ^ 10) }
{
    let times = number / UNIT;
    if times <= MOST {
        Some(times as u64)
    } else {
        None
    }
}

// What is left of a number below 2^60.
fn rest_of(number: u128) -> u64
    ensures value { result ≡ number % 2 ^ 60 }
    ensures small { result < 2 ^ 60 }
{
    (number % UNIT) as u64
}

// Adds a place, where there is something at it.
fn push_high(highs: &mut Vec<High>, place: usize, times: u64) -> Result<(), AllocError>
    ensures { OnOk result (highs.new.items ≡ with_high highs.old.items place times) }
{
    if times != 0 {
        highs.push(High { place, times })?;
    }
    Ok(())
}

// The parts of numbers, if each has 2^60 at most 2^10 times.
pub fn parts_of(alloc: Global, numbers: &[u128]) -> Result<Option<Parted>, AllocError>
    ensures { IfOk result (λ o. IfSome o (λ p. AreParts numbers.now p.lows.items p.highs.items)) }
{
    let mut lows = Vec::with_capacity(alloc, numbers.len())?;
    let mut highs = Vec::new(alloc);
    for place in 0..numbers.len() {
        let Some(times) = times_of(numbers[place]) else {
            return Ok(None);
        };
        lows.push(rest_of(numbers[place]))?;
        push_high(&mut highs, place, times)?;
    }
    Ok(Some(Parted { lows, highs }))
}

// How often there is 2^60 in the products of the sizes of the entries of a row of the inverse with numbers, added up.
pub fn high_total(factors: &[i64], highs: &[High]) -> u128
    requires factors { IsRowOfInverse (length factors.now) factors.now }
    requires few { length factors.now ≤ 2 ^ 11 }
    requires highs { AreHigh (length factors.now) highs.now }
    ensures { result ≡ high_sum (λ l. nat_abs (part factors.now l)) highs.now }
{
    let mut total = 0;
    for high in highs {
        total = plus_short(total, high.times, factors[high.place].unsigned_abs());
    }
    total
}
