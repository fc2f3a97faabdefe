// Numbers with a fixed count of decimals.
ghost use Rattle.std.specs.Prelude.{◌≡◌, ◌<◌, ◌≤◌, ◌+◌, ◌/◌, ◌%◌, ◌^◌, ◌++◌, unsigned_abs, IfOk, OnOk};
ghost use Rattle.fd_decimal.specs.Decimals.{fixed_text, last_digits, micro_text, nano_text, sign, signed_text, size_text};

use itoa::Buffer;
use std::alloc::{AllocError, Global};

// The length of the longest text of a size up to 2^60 micro-units, with its sign.
const USUAL_LENGTH: usize = 21;

fn sign(value: i128) -> &'static [u8]
    ensures { result.now ≡ sign value }
{
    if value < 0 { b"-" } else { b"" }
}

fn nine_digits(n: u32) -> [u8; 9]
    ensures { result ≡ last_digits 9 n }
{
    let digit = |power: u32| -> u8
        requires { 0 < power }
        ensures { result ≡ 48 + n / power % 10 }
    { 48 + (n / power % 10) as u8 };
    [
        digit(100_000_000),
        digit(10_000_000),
        digit(1_000_000),
        digit(100_000),
        digit(10_000),
        digit(1000),
        digit(100),
        digit(10),
        digit(1),
    ]
}

// The number of units that are one.
fn units_per_one(places: u32) -> u64
    requires { places ≤ 9 }
    ensures value { result ≡ 10 ^ places }
    ensures positive { 0 < result }
    ensures most { result ≤ 10 ^ 9 }
{
    10u64.pow(places)
}

// Adds the last digits, so many.
fn push_digits(text: &mut Vec<u8>, places: u32, n: u32) -> Result<(), AllocError>
    requires { places ≤ 9 }
    ensures { OnOk result (text.new.items ≡ text.old.items ++ last_digits places n) }
{
    text.extend_from_slice(&nine_digits(n)[(9 - places) as usize..])
}

// The same as `push_fixed` for so many units in 64 bits.
#[tactic(auto, unfolding(crate::specs::Decimals::fixed_text))]
fn push_short(text: &mut Vec<u8>, places: u32, n: u64) -> Result<(), AllocError>
    requires { places ≤ 9 }
    ensures { OnOk result (text.new.items ≡ text.old.items ++ fixed_text places n) }
{
    let one = units_per_one(places);
    let mut whole = Buffer::new();
    text.extend_from_slice(whole.format(n / one).as_bytes())?;
    text.push(b'.')?;
    push_digits(text, places, (n % one) as u32)
}

#[tactic(auto, unfolding(crate::specs::Decimals::fixed_text))]
fn push_fixed(text: &mut Vec<u8>, places: u32, n: u128) -> Result<(), AllocError>
    requires { places ≤ 9 }
    ensures { OnOk result (text.new.items ≡ text.old.items ++ fixed_text places n) }
{
    if n <= u64::MAX as u128 {
        return push_short(text, places, n as u64);
    }
    let one = units_per_one(places) as u128;
    let mut whole = Buffer::new();
    text.extend_from_slice(whole.format(n / one).as_bytes())?;
    text.push(b'.')?;
    push_digits(text, places, (n % one) as u32)
}

/// The text of so many units, of which 10^places are one: so many decimals, at most nine.
pub fn fixed_text(alloc: Global, places: u32, n: u128) -> Result<Vec<u8>, AllocError>
    requires { places ≤ 9 }
    ensures { IfOk result (λ v. v.items ≡ fixed_text places n) }
{
    let mut text = Vec::with_capacity(alloc, USUAL_LENGTH)?;
    push_fixed(&mut text, places, n)?;
    Ok(text)
}

// The text of so many units: a minus stands before what isn't zero alone.
#[tactic(auto, unfolding(crate::specs::Decimals::signed_text))]
fn signed_text(alloc: Global, places: u32, value: i128) -> Result<Vec<u8>, AllocError>
    requires { places ≤ 9 }
    ensures { IfOk result (λ v. v.items ≡ signed_text places value) }
{
    let mut text = Vec::with_capacity(alloc, USUAL_LENGTH)?;
    text.extend_from_slice(sign(value))?;
    push_fixed(&mut text, places, value.unsigned_abs())?;
    Ok(text)
}

/// The text of so many micro-units: six decimals.
pub fn size_text(alloc: Global, size: u128) -> Result<Vec<u8>, AllocError>
    ensures { IfOk result (λ v. v.items ≡ size_text size) }
{
    fixed_text(alloc, 6, size)
}

/// The text of a number of micro-units: six decimals, and a minus before what isn't zero alone.
pub fn micro_text(alloc: Global, value: i128) -> Result<Vec<u8>, AllocError>
    ensures { IfOk result (λ v. v.items ≡ micro_text value) }
{
    signed_text(alloc, 6, value)
}

/// The text of a number of nano-units: nine decimals, and a minus before what isn't zero alone.
pub fn nano_text(alloc: Global, value: i128) -> Result<Vec<u8>, AllocError>
    ensures { IfOk result (λ v. v.items ≡ nano_text value) }
{
    signed_text(alloc, 9, value)
}
