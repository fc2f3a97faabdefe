// Rows of an inverse, read into the cells of a matrix.
ghost use Rattle.std.specs.Prelude.{◌≡◌, ◌≤◌, ◌+◌, ◌-◌, ◌<◌, ◌++◌, ◌∷◌, [], ℤ, List, None, Some, length, true, false, IfOk, OnOk, IfSome, IfNone, pos};
ghost use Rattle.std.specs.List.{slice_split};
ghost use Rattle.std.specs.Option.{option_map};
ghost use Rattle.fd_certfile.specs.Blocks.{Sparse, is_place, is_zero, row_at};
ghost use Rattle.fd_lines.specs.Cuts.{texts_of};
ghost use Rattle.fd_certfile.specs.Lines.{is_blank};
ghost use Rattle.fd_lines.specs.Numbers.{numbers_of};
ghost use Rattle.fd_certfile.specs.Readings.{AreSteps, HasNext, IsNext, IsNoNext, IsPair, IsPut, IsUnput, PushesRow, entries_by, is_between, kept, row_in, zeros};
ghost use Rattle.fd_certfile.specs.Views.{view};

use crate::cells::Cells;
use crate::line::Line;
use crate::version::Version;
use fd_lines::{Fields, first, pair, short_pair};
use std::alloc::AllocError;

/// Whether a number is that of this place.
pub(crate) fn is_place(place: u128, number: i128) -> bool
    ensures { result ≡ is_place place number }
{
    number >= 0 && number as u128 == place
}

// Whether a number is that of a place from one on and below another.
fn is_between(from: u64, below: u64, number: i128) -> bool
    ensures { result ≡ is_between from below number }
{
    number >= 0 && number as u128 >= from as u128 && (number as u128) < below as u128
}

// Adds a number where numbers are kept.
fn push_kept(cells: &mut Cells, keep: bool, number: i128) -> Result<(), AllocError>
    ensures { OnOk result (cells.new ≡ cells.old ++ kept keep (number ∷ [])) }
{
    if keep {
        cells.push(number)?;
    }
    Ok(())
}

// Adds so many zeros.
fn push_zeros(cells: &mut Cells, count: u64) -> Result<(), AllocError>
    ensures { OnOk result (cells.new ≡ cells.old ++ zeros count) }
{
    for _zero in 0..count {
        cells.push(0)?;
    }
    Ok(())
}

// Adds so many zeros where numbers are kept.
fn push_gap(cells: &mut Cells, keep: bool, count: u64) -> Result<(), AllocError>
    ensures { OnOk result (cells.new ≡ cells.old ++ kept keep (zeros count)) }
{
    if keep {
        push_zeros(cells, count)?;
    }
    Ok(())
}

// Adds an entry at its place in a row of so many, where entries are kept, with zeros before it from the place on that
// comes next, and answers the place behind it; or none, where the entry is 0 or its place isn't one of those that are
// left.
fn push_pair(
    cells: &mut Cells,
    keep: bool,
    count: u64,
    next: u64,
    place: i128,
    entry: i128,
) -> Result<Option<u64>, AllocError>
    ensures some { IfOk result (λ o. IfSome o (λ behind. IsPut keep count next place entry behind cells.old cells.new)) }
    ensures none { IfOk result (λ o. IfNone o (IsUnput count next place entry)) }
{
    if entry == 0 || !is_between(next, count, place) {
        return Ok(None);
    }
    let place = place as u64;
    push_gap(cells, keep, place - next)?;
    push_kept(cells, keep, entry)?;
    Ok(Some(place + 1))
}

// The same of a place and an entry in 64 bits.
#[inline(always)]
fn push_short_pair(
    cells: &mut Cells,
    keep: bool,
    count: u64,
    next: u64,
    place: u64,
    entry: i64,
) -> Result<Option<u64>, AllocError>
    ensures some { IfOk result (λ o. IfSome o (λ behind. IsPut keep count next (pos place) entry behind cells.old cells.new)) }
    ensures none { IfOk result (λ o. IfNone o (IsUnput count next (pos place) entry)) }
{
    if entry == 0 || place < next || place >= count {
        return Ok(None);
    }
    if keep {
        push_zeros(cells, place - next)?;
        cells.push_short(entry)?;
    }
    Ok(Some(place + 1))
}

// Adds the entry behind the place that comes first in these fields, where entries are kept, and answers the place
// behind it and the other fields; or none, where there is none.
#[inline(never)]
fn push_long_pair<'a>(
    cells: &mut Cells,
    keep: bool,
    count: u64,
    next: u64,
    fields: Fields<'a>,
) -> Result<Option<(u64, Fields<'a>)>, AllocError>
    ensures some { IfOk result (λ o. IfSome o (λ p.
        IsPair keep count next cells.old cells.new
        (texts_of (option_map (λ t. t.now) fields.entry)) p.0 (texts_of (option_map (λ t. t.now) p.1)))) }
    ensures none { IfOk result (λ o. IfNone o (IsNoNext Sparse count next (texts_of (option_map (λ t. t.now) fields.entry)))) }
{
    match pair(fields) {
        Some((place, entry, more)) => match push_pair(cells, keep, count, next, place, entry)? {
            Some(behind) => Ok(Some((behind, more))),
            None => Ok(None),
        },
        None => Ok(None),
    }
}

// The same. It is inlined, so that the answer's room is made only where the call is.
#[inline(always)]
fn push_pair_apart<'a>(
    cells: &mut Cells,
    keep: bool,
    count: u64,
    next: u64,
    fields: Fields<'a>,
) -> Result<Option<(u64, Fields<'a>)>, AllocError>
    ensures some { IfOk result (λ o. IfSome o (λ p.
        IsPair keep count next cells.old cells.new
        (texts_of (option_map (λ t. t.now) fields.entry)) p.0 (texts_of (option_map (λ t. t.now) p.1)))) }
    ensures none { IfOk result (λ o. IfNone o (IsNoNext Sparse count next (texts_of (option_map (λ t. t.now) fields.entry)))) }
{
    push_long_pair(cells, keep, count, next, fields)
}

// The same of a text. A pair of few digits is read without looking for the end of the text.
#[inline(always)]
fn push_text_pair<'a>(
    cells: &mut Cells,
    keep: bool,
    count: u64,
    next: u64,
    text: &'a [u8],
) -> Result<Option<(u64, Fields<'a>)>, AllocError>
    ensures some { IfOk result (λ o. IfSome o (λ p.
        IsPair keep count next cells.old cells.new
        (slice_split is_blank text.now) p.0 (texts_of (option_map (λ t. t.now) p.1)))) }
    ensures none { IfOk result (λ o. IfNone o (IsNoNext Sparse count next (slice_split is_blank text.now))) }
{
    match short_pair(text) {
        Some((place, entry, more)) => {
            match push_short_pair(cells, keep, count, next, place, entry)? {
                Some(behind) => Ok(Some((behind, Some(more)))),
                None => Ok(None),
            }
        }
        None => push_pair_apart(cells, keep, count, next, Some(text)),
    }
}

// Adds the next entry of a row of so many in a version, where entries are kept, and answers the place behind it and
// the other fields; or none, where there is none. It stands at the place that comes next, or behind the place that is
// named, with zeros between.
#[inline(always)]
fn push_next<'a>(
    cells: &mut Cells,
    keep: bool,
    version: Version,
    count: u64,
    next: u64,
    fields: Fields<'a>,
) -> Result<Option<(u64, Fields<'a>)>, AllocError>
    requires { HasNext version count next }
    ensures some { IfOk result (λ o. IfSome o (λ p.
        IsNext version keep count next cells.old cells.new
        (texts_of (option_map (λ t. t.now) fields.entry)) p.0 (texts_of (option_map (λ t. t.now) p.1)))) }
    ensures none { IfOk result (λ o. IfNone o (IsNoNext version count next (texts_of (option_map (λ t. t.now) fields.entry)))) }
{
    match version {
        Version::Whole => match first(fields) {
            Some((entry, more)) => {
                push_kept(cells, keep, entry)?;
                Ok(Some((next + 1, more)))
            }
            None => Ok(None),
        },
        Version::Sparse => match fields {
            Some(text) => push_text_pair(cells, keep, count, next, text),
            None => Ok(None),
        },
    }
}

// Adds the entries of a row of so many that these fields have in a version, where entries are kept, and answers whether
// they have so many steps and no more: in version 1 each entry of the row, in version 2 pairs whose places rise, with
// no entry 0.
fn push_steps(
    cells: &mut Cells,
    keep: bool,
    version: Version,
    count: u64,
    steps: u64,
    fields: Fields<'_>,
) -> Result<bool, AllocError>
    requires { AreSteps version count steps }
    ensures { IfOk result (λ ok.
        PushesRow keep cells.old cells.new ok
        (entries_by version count steps (numbers_of (texts_of (option_map (λ t. t.now) fields.entry))))) }
{
    let mut rest = fields;
    let mut next = 0;
    for _step in 0..steps {
        let Some((behind, more)) = push_next(cells, keep, version, count, next, rest)? else {
            return Ok(false);
        };
        next = behind;
        rest = more;
    }
    match rest {
        Some(_) => Ok(false),
        None => {
            push_gap(cells, keep, count - next)?;
            Ok(true)
        }
    }
}

// The same of fields of which the first is the number of pairs.
fn push_counted(
    cells: &mut Cells,
    keep: bool,
    count: u64,
    fields: Fields<'_>,
) -> Result<bool, AllocError>
    ensures { IfOk result (λ ok.
        PushesRow keep cells.old cells.new ok
        (row_in Sparse count (numbers_of (texts_of (option_map (λ t. t.now) fields.entry))))) }
{
    match first(fields) {
        Some((pairs, named)) => match u64::try_from(pairs) {
            Ok(pairs) => push_steps(cells, keep, Version::Sparse, count, pairs, named),
            Err(_) => Ok(false),
        },
        None => Ok(false),
    }
}

// Adds the entries of a row of so many that these fields have in a version, where entries are kept, and answers whether
// they have one.
fn push_fields(
    cells: &mut Cells,
    keep: bool,
    version: Version,
    count: u64,
    fields: Fields<'_>,
) -> Result<bool, AllocError>
    ensures { IfOk result (λ ok.
        PushesRow keep cells.old cells.new ok
        (row_in version count (numbers_of (texts_of (option_map (λ t. t.now) fields.entry))))) }
{
    match version {
        Version::Whole => push_steps(cells, keep, version, count, count, fields),
        Version::Sparse => push_counted(cells, keep, count, fields),
    }
}

/// Adds the entries of the row at this place, where they are kept, and answers whether the line is such a row in a
/// version.
pub(crate) fn push_row(
    cells: &mut Cells,
    keep: bool,
    version: Version,
    count: u64,
    place: u128,
    line: &Line<'_>,
) -> Result<bool, AllocError>
    ensures { IfOk result (λ ok. PushesRow keep cells.old cells.new ok (row_at version count place (view line.now))) }
{
    let Line::Row(fields) = line else {
        return Ok(false);
    };
    match first(*fields) {
        Some((number, entries)) => {
            if !is_place(place, number) {
                return Ok(false);
            }
            push_fields(cells, keep, version, count, entries)
        }
        None => Ok(false),
    }
}
