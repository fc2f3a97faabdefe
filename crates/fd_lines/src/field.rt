// The fields of a line: numbers behind one blank each, read without memory.
ghost use Rattle.std.specs.Prelude.{◌≡◌, ◌<◌, ◌∷◌, List, Some, ℤ, is_some, length, IfNone, IfSome};
ghost use Rattle.std.specs.List.{slice_split};
ghost use Rattle.std.specs.Option.{option_map};
ghost use Rattle.fd_lines.specs.Cuts.{texts_of, first_number, four_of, one_of, three_of, two_of};
ghost use Rattle.fd_lines.specs.Lines.{is_blank};
ghost use Rattle.fd_lines.specs.Numbers.{numbers_of};

use crate::cutting::cut;
use crate::number::number;
use crate::short::short;

/// The fields that are left, as text whose blanks part them, or none.
pub type Fields<'a> = Option<&'a [u8]>;

/// The first field of a text, and the others.
#[inline]
pub fn parted(text: &[u8]) -> (&[u8], Fields<'_>)
    ensures { slice_split is_blank text.now ≡ result.0.now ∷ texts_of (option_map (λ t. t.now) result.1) }
{
    match cut(text, b' ') {
        Some((field, more)) => (field, Some(more)),
        None => (text, None),
    }
}

// The number that the first field of a text spells, and the other fields: the field is found, and then read.
#[inline(never)]
fn found(text: &[u8]) -> Option<(i128, Fields<'_>)>
    ensures { option_map (λ p. (p.0, texts_of (option_map (λ t. t.now) p.1))) result ≡ first_number (slice_split is_blank text.now) }
{
    let (field, rest) = parted(text);
    match number(field) {
        Some(number) => Some((number, rest)),
        None => None,
    }
}

// The same. It is inlined, so that the answer's room is made only where the call is.
#[inline(always)]
fn found_apart(text: &[u8]) -> Option<(i128, Fields<'_>)>
    ensures { option_map (λ p. (p.0, texts_of (option_map (λ t. t.now) p.1))) result ≡ first_number (slice_split is_blank text.now) }
{
    found(text)
}

/// The number that the first field spells, and the other fields. One of few digits is read with its end in one walk.
#[inline(always)]
pub fn first(fields: Fields<'_>) -> Option<(i128, Fields<'_>)>
    ensures { option_map (λ p. (p.0, texts_of (option_map (λ t. t.now) p.1))) result ≡ first_number (texts_of (option_map (λ t. t.now) fields.entry)) }
{
    match fields {
        Some(text) => match short(text) {
            Some((number, rest)) => Some((i128::from(number), rest)),
            None => found_apart(text),
        },
        None => None,
    }
}

/// The numbers of the first two fields, and the other fields.
pub fn pair(fields: Fields<'_>) -> Option<(i128, i128, Fields<'_>)>
    ensures some { IfSome result (λ p. numbers_of (texts_of (option_map (λ t. t.now) fields.entry))
        ≡ option_map (λ zs. p.0 ∷ p.1 ∷ zs) (numbers_of (texts_of (option_map (λ t. t.now) p.2)))) }
    ensures none { IfNone result ((zs : List ℤ) → numbers_of (texts_of (option_map (λ t. t.now) fields.entry)) ≡ Some zs → length zs < 2) }
{
    match first(fields) {
        Some((place, more)) => match first(more) {
            Some((entry, rest)) => Some((place, entry, rest)),
            None => None,
        },
        None => None,
    }
}

/// One number and no more.
pub fn one(fields: Fields<'_>) -> Option<i128>
    ensures { result ≡ one_of (numbers_of (texts_of (option_map (λ t. t.now) fields.entry))) }
{
    match first(fields) {
        Some((a, rest)) => match rest {
            Some(_) => None,
            None => Some(a),
        },
        None => None,
    }
}

fn two(fields: Fields<'_>) -> Option<(i128, i128)>
    ensures { option_map (λ p. (p.0, p.1)) result ≡ two_of (numbers_of (texts_of (option_map (λ t. t.now) fields.entry))) }
{
    match first(fields) {
        Some((a, rest)) => match one(rest) {
            Some(b) => Some((a, b)),
            None => None,
        },
        None => None,
    }
}

/// Three numbers and no more.
pub fn three(fields: Fields<'_>) -> Option<(i128, i128, i128)>
    ensures { option_map (λ p. (p.0, p.1, p.2)) result ≡ three_of (numbers_of (texts_of (option_map (λ t. t.now) fields.entry))) }
{
    match first(fields) {
        Some((a, rest)) => match two(rest) {
            Some((b, c)) => Some((a, b, c)),
            None => None,
        },
        None => None,
    }
}

/// Four numbers and no more.
pub fn four(fields: Fields<'_>) -> Option<(i128, i128, i128, i128)>
    ensures { option_map (λ p. (p.0, p.1, p.2, p.3)) result ≡ four_of (numbers_of (texts_of (option_map (λ t. t.now) fields.entry))) }
{
    match first(fields) {
        Some((a, rest)) => match three(rest) {
            Some((b, c, d)) => Some((a, b, c, d)),
            None => None,
        },
        None => None,
    }
}

/// Whether each field spells a number.
pub fn are_numbers(fields: Fields<'_>) -> bool
    ensures { result ≡ is_some (numbers_of (texts_of (option_map (λ t. t.now) fields.entry))) }
{
    let mut rest = fields;
    while let Some(text) = rest {
        match first(Some(text)) {
            Some((_number, more)) => rest = more,
            None => return false,
        }
    }
    true
}
