// Pairs of a row, read into entries.
ghost use Rattle.std.specs.Prelude.{◌≡◌, None, false, IfOk, IfSome, IfNone, []};
ghost use Rattle.std.specs.Option.{option_and_then, option_map};
ghost use Rattle.fd_derived.specs.Rows.{entries_of};
ghost use Rattle.fd_lines.specs.WordLines.{numbers_in};
ghost use Rattle.fd_rowfile.specs.Blocks.{left_at, list_at, pairs_at, pivot_at};
ghost use Rattle.fd_rowfile.specs.Held.{IsPut, TakesPairs, clipped, clipped_place, fits, is_next_at};

use fd_derived::Entry;
use fd_lines::{Fields, first, pair};
use std::alloc::{AllocError, Global};

/// Where the places of a list may be: anywhere, below a number, or below it and not at the pivot's.
#[derive(Clone, Copy, Debug, Drop)]
pub(crate) enum Fit {
    Anywhere,
    Below(u128),
    Beside(u128, u128),
}

fn fits(fit: Fit, place: u128) -> bool
    ensures { result ≡ fits fit place }
{
    match fit {
        Fit::Anywhere => true,
        Fit::Below(below) => place < below,
        Fit::Beside(below, pivot) => place < below && place != pivot,
    }
}

// A number, or the greatest of its sign in 64 bits where it needs more.
fn clipped(number: i128) -> i64
    ensures { result ≡ clipped number }
{
    match i64::try_from(number) {
        Ok(short) => short,
        Err(_) => { if number < 0 { i64::MIN } else { i64::MAX } }
    }
}

// A place, or the greatest of 64 bits where it needs more.
fn clipped_place(place: u128) -> usize
    ensures { result ≡ clipped_place place }
{
    match usize::try_from(place) {
        Ok(short) => short,
        Err(_) => usize::MAX,
    }
}

// Whether a pair is the next: its place is one from this one on that fits, and its number isn't 0.
fn is_next(fit: Fit, next: u128, place: i128, units: i128) -> bool
    ensures { result ≡ is_next_at (fits fit) next place units }
{
    place >= 0 && place as u128 >= next && fits(fit, place as u128) && units != 0
}

// Adds a pair, if it is the next, and answers the place behind it.
fn push_pair(
    entries: &mut Vec<Entry>,
    fit: Fit,
    next: u128,
    place: i128,
    units: i128,
) -> Result<Option<u128>, AllocError>
    ensures some { IfOk result (λ o. IfSome o (λ behind. IsPut (fits fit) next place units behind (entries_of entries.old.items) (entries_of entries.new.items))) }
    ensures none { IfOk result (λ o. IfNone o (is_next_at (fits fit) next place units ≡ false)) }
{
    if !is_next(fit, next, place, units) {
        return Ok(None);
    }
    let at = place as u128;
    entries.push(Entry {
        place: clipped_place(at),
        units: clipped(units),
    })?;
    Ok(Some(at + 1))
}

// Adds so many pairs that come first in these fields, and answers the other fields; or none, where there are none.
fn push_pairs<'a>(
    entries: &mut Vec<Entry>,
    fit: Fit,
    count: u128,
    fields: Fields<'a>,
) -> Result<Option<Fields<'a>>, AllocError>
    ensures some { IfOk result (λ o. IfSome o (λ rest.
        TakesPairs (pairs_at (fits fit) count 0) (numbers_in (option_map (λ t. t.now) fields.entry))
        (numbers_in (option_map (λ t. t.now) rest)) (entries_of entries.old.items) (entries_of entries.new.items))) }
    ensures none { IfOk result (λ o. IfNone o
        (option_and_then (pairs_at (fits fit) count 0) (numbers_in (option_map (λ t. t.now) fields.entry)) ≡ None)) }
{
    let mut rest = fields;
    let mut next = 0;
    for _taken in 0..count {
        let Some((place, units, more)) = pair(rest) else {
            return Ok(None);
        };
        let Some(behind) = push_pair(entries, fit, next, place, units)? else {
            return Ok(None);
        };
        next = behind;
        rest = more;
    }
    Ok(Some(rest))
}

/// The pairs that come first in these fields behind their number, and the other fields; none, where they aren't in the
/// grammar. No room is made for a number of pairs that aren't there.
pub(crate) fn list<'a>(
    alloc: Global,
    fit: Fit,
    fields: Fields<'a>,
) -> Result<Option<(Vec<Entry>, Fields<'a>)>, AllocError>
    ensures some { IfOk result (λ o. IfSome o (λ p.
        TakesPairs (list_at (fits fit)) (numbers_in (option_map (λ t. t.now) fields.entry))
        (numbers_in (option_map (λ t. t.now) p.1)) [] (entries_of p.0.items))) }
    ensures none { IfOk result (λ o. IfNone o
        (option_and_then (list_at (fits fit)) (numbers_in (option_map (λ t. t.now) fields.entry)) ≡ None)) }
{
    let Some((count, pairs)) = first(fields) else {
        return Ok(None);
    };
    if count < 0 {
        return Ok(None);
    }
    let mut entries = Vec::new(alloc);
    match push_pairs(&mut entries, fit, count as u128, pairs)? {
        Some(rest) => Ok(Some((entries, rest))),
        None => Ok(None),
    }
}

// The pivot that comes first in these fields and so many pairs beside it, and the other fields.
fn pivot<'a>(
    alloc: Global,
    below: u128,
    count: u128,
    fields: Fields<'a>,
) -> Result<Option<(Vec<Entry>, Fields<'a>)>, AllocError>
    ensures some { IfOk result (λ o. IfSome o (λ p.
        TakesPairs (pivot_at below count) (numbers_in (option_map (λ t. t.now) fields.entry))
        (numbers_in (option_map (λ t. t.now) p.1)) [] (entries_of p.0.items))) }
    ensures none { IfOk result (λ o. IfNone o
        (option_and_then (pivot_at below count) (numbers_in (option_map (λ t. t.now) fields.entry)) ≡ None)) }
{
    let Some((place, units, more)) = pair(fields) else {
        return Ok(None);
    };
    let mut entries = Vec::new(alloc);
    let Some(behind) = push_pair(&mut entries, Fit::Below(below), 0, place, units)? else {
        return Ok(None);
    };
    match push_pairs(&mut entries, Fit::Beside(below, behind - 1), count, more)? {
        Some(rest) => Ok(Some((entries, rest))),
        None => Ok(None),
    }
}

/// At least one pair, the first of them a pivot, that come first in these fields behind their number, and the other
/// fields; none, where they aren't in the grammar of a row of so many unknowns.
pub(crate) fn left<'a>(
    alloc: Global,
    below: u128,
    fields: Fields<'a>,
) -> Result<Option<(Vec<Entry>, Fields<'a>)>, AllocError>
    ensures some { IfOk result (λ o. IfSome o (λ p.
        TakesPairs (left_at below) (numbers_in (option_map (λ t. t.now) fields.entry))
        (numbers_in (option_map (λ t. t.now) p.1)) [] (entries_of p.0.items))) }
    ensures none { IfOk result (λ o. IfNone o
        (option_and_then (left_at below) (numbers_in (option_map (λ t. t.now) fields.entry)) ≡ None)) }
{
    let Some((count, pairs)) = first(fields) else {
        return Ok(None);
    };
    if count < 1 {
        return Ok(None);
    }
    pivot(alloc, below, count as u128 - 1, pairs)
}
