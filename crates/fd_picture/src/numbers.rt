// Numbers and names as the fields of a report have them.
ghost use Rattle.std.specs.Prelude.{◌≡◌, ◌<◌, length, ◌≤◌, ◌^◌, ◌&&◌, ◌||◌, IfSome, is_some};
ghost use Rattle.std.specs.Char.{is_ascii_digit};
ghost use Rattle.std.specs.List.{list_all};
ghost use Rattle.std.specs.Str.{is_utf8};
ghost use Rattle.fd_picture.specs.Numbers.{behind_point, decimal_of, is_bank_position, is_decimal, is_name, is_position, is_printed, is_signed, is_steps, joined, text_eq, is_whole, value_of, whole_of, without_minus};

use std::str;

// The most digits before a point, and of a whole number.
const MOST_DIGITS: usize = 10;

fn are_digits(text: &[u8]) -> bool
    ensures { result ≡ list_all is_ascii_digit text.now }
{
    text.iter().all(|c| c.is_ascii_digit())
}

// Whether a text is one to ten digits.
fn is_whole(text: &[u8]) -> bool
    ensures { result ≡ is_whole text.now }
{
    !text.is_empty() && text.len() <= MOST_DIGITS && are_digits(text)
}

// The number that digits spell.
fn value_of(text: &[u8]) -> u64
    requires { length text.now ≤ 10 }
    ensures value { result ≡ value_of text.now }
    ensures small { result < 10 ^ 12 }
{
    let mut value: u64 = 0;
    for c in text {
        value = value * 10 + u64::from(c.saturating_sub(b'0'));
    }
    value
}

/// The whole number that one to ten digits spell.
#[tactic(auto, unfolding(crate::specs::Numbers::whole_of))]
pub(crate) fn whole(text: &[u8]) -> Option<u64>
    ensures value { result ≡ whole_of text.now }
    ensures small { IfSome result (λ n. n < 10 ^ 12) }
{
    if is_whole(text) {
        Some(value_of(text))
    } else {
        None
    }
}

fn behind_point(text: &[u8]) -> Option<u64>
    ensures value { result ≡ behind_point text.now }
    ensures small { IfSome result (λ n. n < 10 ^ 12) }
{
    match text {
        [b'.', decimals @ ..] => whole(decimals),
        _ => None,
    }
}

fn units_per_one(places: u32) -> u64
    requires { places ≤ 6 }
    ensures value { result ≡ 10 ^ places }
    ensures most { result ≤ 10 ^ 6 }
{
    10u64.pow(places)
}

// A whole and decimals, in units of which 10^places are one.
fn joined(places: u32, whole: Option<u64>, decimals: Option<u64>) -> Option<u64>
    requires places { places ≤ 6 }
    requires whole { IfSome whole (λ n. n < 10 ^ 12) }
    requires decimals { IfSome decimals (λ n. n < 10 ^ 12) }
    ensures { result ≡ joined places whole decimals }
{
    match (whole, decimals) {
        (Some(whole), Some(decimals)) => Some(whole * units_per_one(places) + decimals),
        _ => None,
    }
}

/// The number of units, of which 10^places are one, that a text spells: one to ten digits, a point, and exactly so
/// many digits.
#[tactic(auto, unfolding(crate::specs::Numbers::decimal_of))]
pub(crate) fn decimal(places: u32, text: &[u8]) -> Option<u64>
    requires { places ≤ 6 }
    ensures { result ≡ decimal_of places text.now }
{
    if text.len() <= places as usize {
        return None;
    }
    let (before, behind) = text.split_at(text.len() - (places as usize + 1));
    joined(places, whole(before), behind_point(behind))
}

fn without_minus(text: &[u8]) -> &[u8]
    ensures { result.now ≡ without_minus text.now }
{
    match text {
        [b'-', rest @ ..] => rest,
        _ => text,
    }
}

/// Whether a text spells a size in micro-units, with six decimals.
pub(crate) fn is_size(text: &[u8]) -> bool
    ensures { result ≡ is_decimal 6 text.now }
{
    decimal(6, text).is_some()
}

/// Whether a text spells a number of micro-units, with six decimals, behind a minus or not.
pub(crate) fn is_signed(text: &[u8]) -> bool
    ensures { result ≡ is_signed 6 text.now }
{
    is_size(without_minus(text))
}

/// Whether a text spells a time in milliseconds, with three decimals.
pub(crate) fn is_time(text: &[u8]) -> bool
    ensures { result ≡ is_decimal 3 text.now }
{
    decimal(3, text).is_some()
}

/// Whether a text spells a whole number, behind a minus or not.
pub(crate) fn is_steps(text: &[u8]) -> bool
    ensures { result ≡ is_steps text.now }
{
    whole(without_minus(text)).is_some()
}

/// Whether a text spells a tap, with five decimals.
pub(crate) fn is_tap(text: &[u8]) -> bool
    ensures { result ≡ is_decimal 5 text.now }
{
    decimal(5, text).is_some()
}

/// Whether two texts have the same bytes.
pub(crate) fn is_same(text: &[u8], other: &[u8]) -> bool
    ensures { result ≡ text_eq text.now other.now }
{
    text == other
}

/// Whether a text is `open` or `closed`.
pub(crate) fn is_bank_position(text: &[u8]) -> bool
    ensures { result ≡ is_bank_position text.now }
{
    is_same(text, b"open") || is_same(text, b"closed")
}

/// Whether a text is a tap, `open` or `closed`.
pub(crate) fn is_position(text: &[u8]) -> bool
    ensures { result ≡ is_position text.now }
{
    is_bank_position(text) || is_tap(text)
}

fn are_printed(text: &[u8]) -> bool
    ensures { result ≡ list_all is_printed text.now }
{
    text.iter().all(|c| *c >= b' ')
}

/// Whether bytes are text.
#[tactic(auto, using(crate::proofs::Utf8::text_is, crate::proofs::Utf8::text_is_not))]
pub(crate) fn is_text(bytes: &[u8]) -> bool
    ensures { result ≡ is_utf8 bytes.now }
{
    match str::from_utf8(bytes) {
        Ok(_) => true,
        Err(_) => false,
    }
}

/// Whether bytes are text of one character or more, none of which is a control character below the blank.
#[tactic(auto, unfolding(crate::specs::Numbers::is_name))]
pub(crate) fn is_name(text: &[u8]) -> bool
    ensures { result ≡ is_name text.now }
{
    !text.is_empty() && are_printed(text) && is_text(text)
}
