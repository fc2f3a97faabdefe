// The texts of lines.
ghost use Rattle.std.specs.Prelude.{◌≡◌, ◌≤◌, ◌<◌, ◌+◌, ◌++◌, ◌∷◌, [], IfOk, OnOk, drop, length, pos};
ghost use Rattle.std.specs.Fmt.{decimal, signed_decimal};
ghost use Rattle.fd_lines.specs.Lines.{text_by};
ghost use Rattle.fd_lines.specs.Texts.{field_text, fields_text};

use fd_outside::{Bytes, Record};
use itoa::{Buffer, write_digits};
use std::alloc::{AllocError, Global};

// A place and an entry of 64 bits, each behind a blank, take no more bytes.
const PAIR_BYTES: usize = 48;

/// Adds a blank and a field.
///
/// # Errors
/// `AllocError` where memory is refused.
pub fn push_field(text: &mut Vec<u8>, field: &[u8]) -> Result<(), AllocError>
    ensures { OnOk result (text.new.items ≡ text.old.items ++ 32 ∷ field.now) }
{
    text.push(b' ')?;
    text.extend_from_slice(field)
}

/// Adds a blank and how many things there are.
///
/// # Errors
/// `AllocError` where memory is refused.
pub fn push_count(text: &mut Vec<u8>, count: usize) -> Result<(), AllocError>
    ensures { OnOk result (text.new.items ≡ text.old.items ++ field_text (pos count)) }
{
    let mut digits = Buffer::new();
    push_field(text, digits.format(count).as_bytes())
}

// Adds a blank and a number of 64 bits.
fn push_short(text: &mut Vec<u8>, number: i64) -> Result<(), AllocError>
    ensures { OnOk result (text.new.items ≡ text.old.items ++ field_text number) }
{
    let mut digits = Buffer::new();
    push_field(text, digits.format(number).as_bytes())
}

/// Adds a blank and a number, in 64 bits where it fits them.
///
/// # Errors
/// `AllocError` where memory is refused.
pub fn push_number(text: &mut Vec<u8>, number: i128) -> Result<(), AllocError>
    ensures { OnOk result (text.new.items ≡ text.old.items ++ field_text number) }
{
    match i64::try_from(number) {
        Ok(short) => push_short(text, short),
        Err(_) => {
            let mut digits = Buffer::new();
            push_field(text, digits.format(number).as_bytes())
        }
    }
}

/// Adds numbers, each behind a blank.
///
/// # Errors
/// `AllocError` where memory is refused.
pub fn push_numbers(text: &mut Vec<u8>, numbers: &[i128]) -> Result<(), AllocError>
    ensures { OnOk result (text.new.items ≡ text.old.items ++ fields_text numbers.now) }
{
    for number in numbers {
        push_number(text, *number)?;
    }
    Ok(())
}

// Writes a byte before this place of a buffer, and answers where it stands.
#[inline(always)]
fn byte_before(buffer: &mut [u8], at: usize, byte: u8) -> usize
    requires { (0 < at) × (at ≤ length buffer.old) }
    ensures at { result + 1 ≡ at }
    ensures written { drop result buffer.new ≡ byte ∷ drop at buffer.old }
{
    buffer[at - 1] = byte;
    at - 1
}

// Writes a number before this place of a buffer, and answers where it starts.
#[inline(always)]
fn number_before(buffer: &mut [u8], at: usize, number: i64) -> usize
    requires { (20 ≤ at) × (at ≤ length buffer.old) }
    ensures at { (result ≤ at) × (at ≤ result + 20) }
    ensures written { drop result buffer.new ≡ signed_decimal number ++ drop at buffer.old }
{
    let start = write_digits(number.unsigned_abs(), buffer, at);
    if number < 0 {
        return byte_before(buffer, start, b'-');
    }
    start
}

// Writes a place and an entry, each behind a blank, before this place of a buffer, and answers where they start.
#[inline(always)]
fn pair_before(buffer: &mut [u8], at: usize, place: usize, entry: i64) -> usize
    requires { (42 ≤ at) × (at ≤ length buffer.old) }
    ensures at { result ≤ at }
    ensures written { drop result buffer.new ≡ 32 ∷ (decimal place ++ 32 ∷ (signed_decimal entry ++ drop at buffer.old)) }
{
    let entry_at = number_before(buffer, at, entry);
    let blank_at = byte_before(buffer, entry_at, b' ');
    let place_at = write_digits(place as u64, buffer, blank_at);
    byte_before(buffer, place_at, b' ')
}

/// Adds a place and an entry, each behind a blank.
///
/// # Errors
/// `AllocError` where memory is refused.
#[tactic(auto, using(crate::proofs::PairTexts::pair_text))]
#[inline(always)]
pub fn push_pair(text: &mut Vec<u8>, place: usize, entry: i64) -> Result<(), AllocError>
    ensures { OnOk result (text.new.items ≡ text.old.items ++ fields_text (pos place ∷ entry ∷ [])) }
{
    let mut buffer = [0; PAIR_BYTES];
    let start = pair_before(&mut buffer, PAIR_BYTES, place, entry);
    text.extend_from_slice(&buffer[start..])
}

/// The line of a word and of numbers, those of one list and then those of another.
///
/// # Errors
/// `AllocError` where memory is refused.
#[tactic(auto, using(crate::proofs::Fields::line_fields))]
pub fn line_record(
    alloc: Global,
    word: &[u8],
    first: &[i128],
    others: &[i128],
) -> Result<Record, AllocError>
    ensures { IfOk result (λ r. r.bytes ≡ text_by word.now (first.now ++ others.now) ++ 10 ∷ []) }
{
    let mut text = Vec::new(alloc);
    text.extend_from_slice(word)?;
    push_numbers(&mut text, first)?;
    push_numbers(&mut text, others)?;
    text.push(b'\n')?;
    Ok(Record {
        bytes: Bytes::new(text),
    })
}

/// The line of this text, as it is.
///
/// # Errors
/// `AllocError` where memory is refused.
pub fn text_record(alloc: Global, text: &[u8]) -> Result<Record, AllocError>
    ensures { IfOk result (λ r. r.bytes ≡ text.now ++ 10 ∷ []) }
{
    let mut bytes = Vec::new(alloc);
    bytes.extend_from_slice(text)?;
    bytes.push(b'\n')?;
    Ok(Record {
        bytes: Bytes::new(bytes),
    })
}
