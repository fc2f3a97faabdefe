// Numbers in units of 10^-9.
ghost use Rattle.std.specs.Prelude.{◌≡◌, pos, ◌+◌, ◌-◌, ◌*◌, ◌/◌, ◌^◌, ◌<◌, ◌≤◌, ◌++◌, min, fold, length, take, Some, None, Option, IsTrue, IfSome, IfOk};
ghost use Rattle.std.specs.Option.{ForSome};
ghost use Rattle.std.specs.List.{position, before_first, after_first};
ghost use Rattle.std.specs.Str.{chars};
ghost use Rattle.std.specs.Int.RustNames.{unsigned_abs};
ghost use Rattle.fd_exact.specs.Rounding.{with_sign};
ghost use Rattle.dss_lexer.specs.Number.{number_of, unsigned, is_negative, are_digits, is_exponent_mark, is_point, exponent_of, shift_of, value, units, are_mantissa, within_limit, number_from};

use crate::NumberFault;

// Past every number that is allowed, ten times over.
const MOST: u64 = 10_000_000_000_000_000_000;

const LIMIT: u64 = 1_000_000_000_000_000_000;

/// A power of ten, as how many places the point moves to the right and how many to the left.
#[derive(Clone, Copy)]
pub struct Shift {
    pub right: usize,
    pub left: usize,
}

fn without_sign(text: &[u8]) -> &[u8]
    ensures { result.now ≡ unsigned text.now }
{
    match text {
        [b'+' | b'-', rest @ ..] => rest,
        _ => text,
    }
}

fn has_minus(text: &[u8]) -> bool
    ensures { result ≡ is_negative text.now }
{
    matches!(text, [b'-', ..])
}

fn all_digits(text: &[u8]) -> bool
    ensures { result ≡ are_digits text.now }
{
    text.iter().all(|c| c.is_ascii_digit())
}

// One more digit of a number, which stands still past MOST.
fn with_digit(number: u64, digit: u8) -> u64
    requires small { number ≤ MOST }
    requires is_digit { digit ≤ 9 }
    ensures { result ≡ min MOST (number * 10 + digit) }
{
    if number >= LIMIT {
        MOST
    } else {
        number * 10 + u64::from(digit)
    }
}

// Goes on with the digits of a number.
fn with_digits(number: u64, digits: &[u8]) -> u64
    requires small { number ≤ MOST }
    requires digits { IsTrue (are_digits digits.now) }
    ensures { result ≡ min MOST (fold (λ n c. n * 10 + (c - 48)) number digits.now) }
{
    let mut so_far = number;
    for c in digits {
        so_far = with_digit(so_far, *c - b'0');
    }
    so_far
}

// The number with zeros behind it.
fn with_zeros(number: u64, zeros: usize) -> u64
    requires small { number ≤ MOST }
    ensures { result ≡ min MOST (number * 10 ^ zeros) }
{
    let mut so_far = number;
    for _ in 0..zeros {
        so_far = with_digit(so_far, 0);
    }
    so_far
}

#[tactic(auto, using(crate::proofs::Values::value_two))]
fn two_digits(digits: &[u8]) -> usize
    requires digits { IsTrue (are_digits digits.now) }
    requires short { length digits.now ≤ 2 }
    ensures value { result ≡ value digits.now }
    ensures small { result < 100 }
{
    with_digits(0, digits) as usize
}

fn exponent(text: &[u8]) -> Option<Shift>
    ensures value { result ≡ exponent_of text.now }
    ensures small { IfSome result (λ s. (s.left < 100) × (s.right < 100)) }
{
    let digits = without_sign(text);
    if !all_digits(digits) || digits.is_empty() || digits.len() > 2 {
        return None;
    }
    let size = two_digits(digits);
    if has_minus(text) {
        Some(Shift {
            right: 0,
            left: size,
        })
    } else {
        Some(Shift {
            right: size,
            left: 0,
        })
    }
}

fn find_mark(text: &[u8]) -> Option<usize>
    ensures { result ≡ position is_exponent_mark text.now }
{
    text.iter().position(|c| *c == b'e' || *c == b'E')
}

fn find_point(text: &[u8]) -> Option<usize>
    ensures { result ≡ position is_point text.now }
{
    text.iter().position(|c| *c == b'.')
}

// The text before its exponent, and the exponent.
fn split_exponent(text: &[u8]) -> (&[u8], Option<Shift>)
    ensures before { result.0.now ≡ before_first is_exponent_mark text.now }
    ensures after { result.1 ≡ shift_of text.now }
    ensures small { IfSome result.1 (λ s. (s.left < 100) × (s.right < 100)) }
{
    match find_mark(text) {
        Some(mark) => (&text[..mark], exponent(&text[mark + 1..])),
        None => (text, Some(Shift { right: 0, left: 0 })),
    }
}

// The digits on both sides of a point.
fn split_point(text: &[u8]) -> (&[u8], &[u8])
    ensures before { result.0.now ≡ before_first is_point text.now }
    ensures after { result.1.now ≡ after_first is_point text.now }
{
    match find_point(text) {
        Some(point) => (&text[..point], &text[point + 1..]),
        None => (text, &[]),
    }
}

// The value of the first digits, so many of them.
#[tactic(auto, using(crate::proofs::Values::digits_take, crate::proofs::Values::front_behind))]
fn front_value(whole: &[u8], decimals: &[u8], count: usize) -> u64
    requires whole { IsTrue (are_digits whole.now) }
    requires decimals { IsTrue (are_digits decimals.now) }
    requires count { count ≤ length whole.now + length decimals.now }
    ensures { result ≡ min MOST (value (take count (whole.now ++ decimals.now))) }
{
    if count <= whole.len() {
        with_digits(0, &whole[..count])
    } else {
        with_digits(with_digits(0, whole), &decimals[..count - whole.len()])
    }
}

// So many units of 10^-9, nearest, cut off at the limit.
fn size_of(whole: &[u8], decimals: &[u8], shift: Shift) -> u64
    requires whole { IsTrue (are_digits whole.now) }
    requires decimals { IsTrue (are_digits decimals.now) }
    requires right { shift.right < 100 }
    requires left { shift.left < 100 }
    ensures { result ≡ min LIMIT (unsigned_abs (units whole.now decimals.now shift)) }
{
    let count = whole.len() + decimals.len();
    let right = shift.right + 9;
    let left = shift.left + decimals.len();
    if left <= right {
        with_zeros(front_value(whole, decimals, count), right - left).min(LIMIT)
    } else if left - right > count {
        0
    } else {
        // The first digit that is dropped decides.
        let front = front_value(whole, decimals, count + 1 - (left - right));
        ((front + 5) / 10).min(LIMIT)
    }
}

fn is_mantissa(whole: &[u8], decimals: &[u8]) -> bool
    ensures { result ≡ are_mantissa whole.now decimals.now }
{
    all_digits(whole) && all_digits(decimals) && (whole.len() > 0 || decimals.len() > 0)
}

fn signed(negative: bool, size: u64) -> i128
    ensures { result ≡ with_sign negative (pos size) }
{
    if negative {
        -i128::from(size)
    } else {
        i128::from(size)
    }
}

/// The number, where it is below 10^9 in size.
pub fn limited(number: i128) -> Result<i128, NumberFault>
    ensures value { result ≡ within_limit number }
    ensures size { IfOk result (λ n. unsigned_abs n < LIMIT) }
{
    if number.unsigned_abs() >= u128::from(LIMIT) {
        return Err(NumberFault::NumberTooLarge);
    }
    Ok(number)
}

// The number that these parts make.
#[tactic(auto, using(crate::proofs::Nearest::within_limit_cut))]
fn number_of_parts(
    negative: bool,
    whole: &[u8],
    decimals: &[u8],
    shift: Option<Shift>,
) -> Result<i128, NumberFault>
    requires { ForSome shift (λ s. (s.left < 100) × (s.right < 100)) }
    ensures value { result ≡ number_from negative whole.now decimals.now shift }
    ensures size { IfOk result (λ n. unsigned_abs n < LIMIT) }
{
    match shift {
        Some(shift) if is_mantissa(whole, decimals) => {
            limited(signed(negative, size_of(whole, decimals, shift)))
        }
        _ => Err(NumberFault::BadNumber),
    }
}

#[tactic(auto, unfolding(crate::specs::Number::number_of))]
fn number_of_bytes(text: &[u8]) -> Result<i128, NumberFault>
    ensures value { result ≡ number_of text.now }
    ensures size { IfOk result (λ n. unsigned_abs n < LIMIT) }
{
    let (mantissa, shift) = split_exponent(without_sign(text));
    let (whole, decimals) = split_point(mantissa);
    number_of_parts(has_minus(text), whole, decimals, shift)
}

/// The number that the text spells, in whole units of 10^-9.
///
/// An optional sign, digits with at most one point and at least one digit, and optionally `e` or `E` and a whole
/// exponent of one or two digits, which may have a sign. A literal of any length is read exactly and rounded once
/// to the nearest unit, ties away from zero; the limit is tested after that.
/// Errors: BadNumber for any other text, NumberTooLarge at 10^9 and above in size. Takes no memory.
#[tactic(auto, using(crate::proofs::AsciiNumbers::number_ascii, crate::proofs::AsciiNumbers::number_not_ascii))]
pub fn number(text: &str) -> Result<i128, NumberFault>
    ensures value { result ≡ number_of (chars text.now) }
    ensures size { IfOk result (λ n. unsigned_abs n < 1_000_000_000_000_000_000) }
{
    if !text.is_ascii() {
        return Err(NumberFault::BadNumber);
    }
    number_of_bytes(text.as_bytes())
}
