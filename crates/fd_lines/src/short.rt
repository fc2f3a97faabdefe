// Numbers of few digits, read with the end of their field in one walk.
ghost use Rattle.std.specs.Prelude.{◌≡◌, ◌≤◌, ◌<◌, ◌+◌, ◌^◌, ◌∷◌, length, pos, neg_ℤ, Some, SomeIff, IfSome};
ghost use Rattle.std.specs.Char.{digit_value};
ghost use Rattle.std.specs.List.{slice_split};
ghost use Rattle.std.specs.Option.{option_map};
ghost use Rattle.fd_lines.specs.Cuts.{texts_of, first_number};
ghost use Rattle.fd_lines.specs.Lines.{is_blank};
ghost use Rattle.fd_lines.specs.FewDigits.{EndsField, IsHead, IsSizeBefore, IsShortBefore};
ghost use Rattle.fd_lines.specs.Numbers.{numbers_of};

use crate::field::Fields;
use crate::number::{is_negative, leads_with_zero};

// So many digits are worth less than 2^63.
const MOST_DIGITS: usize = 18;

// The place of a pair that is read without looking for the end of its text has so many digits at most.
const PLACE_DIGITS: usize = 6;

// Such a place, an entry of the most digits behind a minus, and their blanks take no more bytes.
const PAIR_ROOM: usize = 27;

// What a byte is worth as a digit.
#[inline(always)]
fn digit(byte: u8) -> Option<u64>
    ensures { SomeIff result (digit_value byte < 10) (digit_value byte) }
{
    let digit = u64::from(byte).wrapping_sub(u64::from(b'0'));
    if digit < 10 { Some(digit) } else { None }
}

// What digits at the head of a text are worth, and how many they are: all of them, or the first so many.
#[inline(always)]
fn head(text: &[u8], most: usize) -> (u64, usize)
    requires { (most ≤ 18) × (most ≤ length text.now) }
    ensures head { IsHead text.now result.0 result.1 }
    ensures few { result.1 ≤ most }
{
    let mut value: u64 = 0;
    for place in 0..most {
        match digit(text[place]) {
            Some(digit) => value = value * 10 + digit,
            None => return (value, place),
        }
    }
    (value, most)
}

// What the digits at the head of a text are worth, where no other digit follows a zero, and what stands behind them.
#[tactic(auto, using(crate::proofs::FewDigits::size_before))]
#[inline(always)]
fn size(text: &[u8]) -> Option<(u64, &[u8])>
    ensures { IfSome result (λ p. IsSizeBefore text.now p.0 p.1.now) }
{
    let (value, count) = head(text, text.len().min(MOST_DIGITS));
    let (digits, rest) = text.split_at(count);
    if digits.is_empty() || leads_with_zero(digits) {
        return None;
    }
    Some((value, rest))
}

#[inline(always)]
fn above_zero(size: u64) -> i64
    requires { size < 2 ^ 63 }
    ensures { result ≡ pos size }
{
    size as i64
}

#[inline(always)]
fn below_zero(size: u64) -> i64
    requires { size < 2 ^ 63 }
    ensures { result ≡ neg_ℤ (pos size) }
{
    -(size as i64)
}

// The number at the head of a text, and what stands behind it.
#[tactic(auto, using(crate::proofs::FewDigits::minus_before, crate::proofs::FewDigits::plain_before))]
#[inline(always)]
fn signed(text: &[u8]) -> Option<(i64, &[u8])>
    ensures { IfSome result (λ p. IsShortBefore text.now p.0 p.1.now) }
{
    if is_negative(text) {
        let (_minus, digits) = text.split_at(1);
        match size(digits) {
            Some((value, rest)) => {
                if value == 0 {
                    return None;
                }
                Some((below_zero(value), rest))
            }
            None => None,
        }
    } else {
        match size(text) {
            Some((value, rest)) => Some((above_zero(value), rest)),
            None => None,
        }
    }
}

// The fields behind one that ends before this text, if it ends here.
#[tactic(auto, using(crate::proofs::FewDigits::ends_all, crate::proofs::FewDigits::ends_before))]
#[inline(always)]
fn behind(rest: &[u8]) -> Option<Fields<'_>>
    ensures { IfSome result (λ fields. EndsField rest.now (texts_of (option_map (λ t. t.now) fields))) }
{
    match rest {
        [] => Some(None),
        [first, more @ ..] => {
            if *first == b' ' {
                Some(Some(more))
            } else {
                None
            }
        }
    }
}

/// The number of at most 18 digits that the first field of a text spells, and the other fields; none where it is longer
/// or spells no number.
#[tactic(auto, using(crate::proofs::FewDigits::short_field))]
#[inline(always)]
pub(crate) fn short(text: &[u8]) -> Option<(i64, Fields<'_>)>
    ensures { IfSome result (λ p. Some (p.0, texts_of (option_map (λ t. t.now) p.1)) ≡ first_number (slice_split is_blank text.now)) }
{
    match signed(text) {
        Some((number, rest)) => match behind(rest) {
            Some(fields) => Some((number, fields)),
            None => None,
        },
        None => None,
    }
}

// What digits before a blank are worth, so many at most and the first of them above 0, and what stands behind the
// blank. The text has more bytes than that.
#[tactic(auto, using(crate::proofs::FewDigits::natural_before))]
#[inline(always)]
fn natural(text: &[u8], most: usize) -> Option<(u64, &[u8])>
    requires { (most ≤ 18) × (most < length text.now) }
    ensures size { IfSome result (λ p. IsSizeBefore text.now p.0 (32 ∷ p.1.now)) }
    ensures long { IfSome result (λ p. length text.now ≤ length p.1.now + most + 1) }
{
    if text[0] == b'0' {
        return None;
    }
    let (value, count) = head(text, most);
    if count == 0 || text[count] != b' ' {
        return None;
    }
    Some((value, &text[count + 1..]))
}

// The number before a blank, of at most 18 digits the first of which is above 0, and what stands behind the blank. The
// text has more bytes than they and a minus.
#[tactic(auto, using(crate::proofs::FewDigits::minus_before, crate::proofs::FewDigits::plain_before))]
#[inline(always)]
fn integer(text: &[u8]) -> Option<(i64, &[u8])>
    requires { 19 < length text.now }
    ensures { IfSome result (λ p. IsShortBefore text.now p.0 (32 ∷ p.1.now)) }
{
    if is_negative(text) {
        let (_minus, digits) = text.split_at(1);
        match natural(digits, MOST_DIGITS) {
            Some((value, rest)) => {
                if value < 1 {
                    return None;
                }
                Some((below_zero(value), rest))
            }
            None => None,
        }
    } else {
        match natural(text, MOST_DIGITS) {
            Some((value, rest)) => Some((above_zero(value), rest)),
            None => None,
        }
    }
}

/// The numbers of the first two fields of a text, and the text of the other fields. The text is long enough that its
/// end isn't looked for; none where it is shorter, where a number has more digits, is 0 or spells none, and where no
/// field follows.
#[tactic(auto, using(crate::proofs::FewDigits::pair_fields))]
#[inline(always)]
pub fn short_pair(text: &[u8]) -> Option<(u64, i64, &[u8])>
    ensures { IfSome result (λ p. numbers_of (slice_split is_blank text.now)
        ≡ option_map (λ zs. pos p.0 ∷ p.1 ∷ zs) (numbers_of (slice_split is_blank p.2.now))) }
{
    if text.len() < PAIR_ROOM {
        return None;
    }
    match natural(text, PLACE_DIGITS) {
        Some((place, more)) => match integer(more) {
            Some((entry, rest)) => Some((place, entry, rest)),
            None => None,
        },
        None => None,
    }
}
