// Whole numbers, as fields spell them.
ghost use Rattle.std.specs.Prelude.{◌≡◌, ◌+◌, ◌*◌, ◌<◌, ◌^◌, pos, SomeIff, IfSome};
ghost use Rattle.std.specs.Char.{digit_value};
ghost use Rattle.std.specs.Option.{option_map, option_and_then};
ghost use Rattle.std.specs.Str.Parse.{digits_value};
ghost use Rattle.fd_lines.specs.Numbers.{number_of};
ghost use Rattle.fd_lines.specs.Numerals.{IsSize, leads_with_zero, is_negative, below_zero};

/// Whether other digits follow a zero.
pub(crate) fn leads_with_zero(digits: &[u8]) -> bool
    ensures { result ≡ leads_with_zero digits.now }
{
    match digits {
        [first, _, ..] => *first == b'0',
        _ => false,
    }
}

// Below it a number has room for one more digit in 64 bits.
const SHORT: u128 = 1 << 60;

// A number with one more digit behind it.
fn with_digit(value: u128, digit: u8) -> Option<u128>
    ensures { SomeIff result ((digit_value digit < 10) × (value * 10 + digit_value digit < 2 ^ 128)) (value * 10 + digit_value digit) }
{
    if !digit.is_ascii_digit() {
        return None;
    }
    if value < SHORT {
        return Some((value as u64 * 10 + (digit - b'0') as u64) as u128);
    }
    match value.checked_mul(10) {
        Some(tenfold) => tenfold.checked_add((digit - b'0') as u128),
        None => None,
    }
}

// What digits without leading zeros are worth.
fn size(digits: &[u8]) -> Option<u128>
    ensures { SomeIff result (IsSize digits.now) (digits_value 10 digits.now) }
{
    if digits.is_empty() || leads_with_zero(digits) {
        return None;
    }
    let mut value: u128 = 0;
    for digit in digits {
        match with_digit(value, *digit) {
            Some(next) => value = next,
            None => return None,
        }
    }
    if value < 1 << 127 { Some(value) } else { None }
}

// The number of this size.
fn above_zero(size: Option<u128>) -> Option<i128>
    requires { IfSome size (λ n. n < 2 ^ 127) }
    ensures { result ≡ option_map pos size }
{
    match size {
        Some(n) => Some(n as i128),
        None => None,
    }
}

// The number of this size behind a minus, unless it is 0.
fn below_zero(size: Option<u128>) -> Option<i128>
    requires { IfSome size (λ n. n < 2 ^ 127) }
    ensures { result ≡ option_and_then below_zero size }
{
    match size {
        Some(0) => None,
        Some(n) => Some(-(n as i128)),
        None => None,
    }
}

/// Whether a minus stands first.
pub(crate) fn is_negative(field: &[u8]) -> bool
    ensures { result ≡ is_negative field.now }
{
    match field {
        [first, ..] => *first == b'-',
        _ => false,
    }
}

/// The whole number that a field spells, in one pass over its bytes.
pub(crate) fn number(field: &[u8]) -> Option<i128>
    ensures { result ≡ number_of field.now }
{
    if is_negative(field) {
        let (_minus, digits) = field.split_at(1);
        below_zero(size(digits))
    } else {
        above_zero(size(field))
    }
}
